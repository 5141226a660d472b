// Document 01's edges and RFC 1982's examples, run and printed.
#![tactic(auto)]

mod call;
mod number;
mod page;
mod serial;
mod short;

use page::Page;
use std::fmt;

fn examples(page: &mut Page) -> fmt::Result {
    number::p_numbers(page)?;
    number::ends(page)?;
    call::p_calls(page)?;
    short::calls(page)?;
    serial::two_bits(page)?;
    serial::eight_bits(page)?;
    serial::pairs(page)?;
    serial::sums(page)
}

fn main(rt: HostRuntime) {
    let mut page = Page::new(rt.stdout());
    let _ = examples(&mut page);
    page.flush();
}
