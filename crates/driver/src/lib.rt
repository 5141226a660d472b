// What the programs `tape` (document 01, Words), `drive` and `panel` share: words in, the station's entry points, lines out.
#![tactic(auto)]

ghost use Rattle.std.specs.Prelude.{◌≡◌, []};
ghost use Rattle.script.specs.Actions.{closed, opened, rest_of};
ghost use Rattle.station.specs.Entries.{answered, close_of};
ghost use Rattle.driver.specs.Commands.{settled_by};
ghost use Rattle.driver.specs.Kept.{kept};
ghost use Rattle.driver.specs.Lines.{answer_lines, heard_by, lines_on};

use memory::{Memory, Words};
use net::Station;
use page::Page;
use refusal::Refusal;
use script::action;
use script::action::{Action, Command, Control};
use std::io::{Stdin, Stdout};

mod command;
mod dump;
mod memory;
mod page;
mod panel;

// What a run of a program holds beside the station: the program's own values, what is lent and kept, and the text.
#[derive(Drop)]
struct Session {
    control: Control,
    memory: Memory,
    page: Page,
}

// Word i of b, highest byte first. The end of all words is read as a word of kind 14: it ends an open command, and nothing comes after the clock that it sets.
fn word_at(b: &[u8], i: usize) -> u32 {
    if b.len() / 4 <= i {
        return 0xe000_0000;
    }
    let j = 4 * i;
    u32::from_be_bytes([b[j], b[j + 1], b[j + 2], b[j + 3]])
}

impl Session {
    // The words of b, and the end of all words where `last`. The entry points that run most are called here, where the station is held: a function clears the
    // places of its own values when it begins, and a call between would copy the station. Shorter forms were tried and are slower (decision 26 of docs/DECISIONS.md).
    fn feed(&mut self, s: Station, b: &[u8], last: bool) -> Station {
        let mut u = s;
        for i in 0..b.len() / 4 + usize::from(last) {
            let w = word_at(b, i);
            match action::ended(w, self.control) {
                Some(Command::Receive) => {
                    let r = command::receive(u, self.control, &mut self.memory);
                    u = r.station;
                    self.received(r.mask, r.answer);
                }
                Some(Command::Post) => {
                    let r = command::post(u, &mut self.memory);
                    u = r.station;
                    self.posted(r.answer);
                }
                Some(command) => self.finish(&mut u, command),
                None => {}
            }
            let m = &mut self.memory;
            match action::action_of(w, self.control) {
                Action::Next => {
                    let r = station::next(u, self.control.now, &m.queue, &mut m.out);
                    u = r.station;
                    self.page.answer(&m.out, r.answer);
                }
                Action::Sent => {
                    let r = station::sent(u, self.control.now);
                    u = r.station;
                    self.page.answer(&m.out, r.answer);
                }
                Action::Free => {
                    let r = station::free(u, action::rest_of(w) as usize);
                    u = r.station;
                    self.page.answer(&m.out, r.answer);
                }
                Action::SignOff => {
                    let r = station::sign_off(u, action::slot_of(w));
                    u = r.station;
                    self.page.answer(&m.out, r.answer);
                }
                a => self.aside(&mut u, a, w),
            }
        }
        u
    }

    // The closing, which changes the round alone: no station is copied back.
    fn close(&mut self, u: &mut Station, w: u32)
        ensures { u.new ≡ (answered (close_of u.old (rest_of w)) 0).station }
    {
        let r = station::close(*u, action::rest_of(w));
        u.round = r.station.round;
        self.page.answer(&self.memory.out, r.answer);
    }

    // The filling of a queue, which runs seldom.
    #[inline(never)]
    fn fill(&mut self, u: &mut Station, w: u32) {
        let r = command::fill(u, w, &mut self.memory.queue);
        *u = r.station;
        self.page.answer(&self.memory.out, r.answer);
    }

    // What only shows something of the station.
    fn shown(&mut self, u: &Station, a: Action, w: u32) {
        match a {
            Action::Read => command::read(u, self.control, w, &self.memory.store, &mut self.page),
            Action::Ask => panel::asked(u, w, self.control.now, &mut self.page),
            _ => dump::roster(u, &mut self.page),
        }
    }

    // What leaves the station as it is, and what runs seldom.
    fn aside(&mut self, u: &mut Station, a: Action, w: u32) {
        match a {
            _ if action::is_shown(a) => self.shown(u, a, w),
            Action::Push => self.memory.words.push(w),
            Action::Open(command) => self.open(command),
            Action::Time => self.control = action::timed(self.control, w),
            Action::Level => self.control = action::leveled(self.control, w),
            Action::Close => self.close(u, w),
            Action::Fill => self.fill(u, w),
            _ => self.page.word(3),
        }
    }

    // A command whose words follow: none of them is kept yet.
    fn open(&mut self, command: Command)
        ensures control { self.new.control ≡ opened self.old.control command }
        ensures words { kept self.new.memory.words ≡ [] }
    {
        self.memory.words.clear();
        self.control = action::opened(self.control, command);
    }

    fn received(&mut self, mask: u64, a: Result<usize, Refusal>)
        ensures page { self.new.page ≡ lines_on self.old.page (heard_by self.old.control.drive self.old.memory.out mask a) }
        ensures control { self.new.control ≡ closed self.old.control }
    {
        let drive = self.control.drive;
        self.page.heard(drive, &self.memory.out, mask, a);
        self.control = action::closed(self.control);
    }

    fn posted(&mut self, a: Result<usize, Refusal>)
        ensures page { self.new.page ≡ lines_on self.old.page (answer_lines self.old.memory.out a) }
        ensures control { self.new.control ≡ closed self.old.control }
    {
        self.page.answer(&self.memory.out, a);
        self.control = action::closed(self.control);
    }

    // The open command, all of whose words are there: one of those that run seldom.
    #[inline(never)]
    fn finish(&mut self, u: &mut Station, command: Command) {
        match command {
            Command::Admit | Command::Start => self.settle(u, command),
            Command::Dues => {
                panel::billed(u, self.memory.words.as_slice(), &mut self.page);
                self.control = action::closed(self.control);
            }
            _ => {
                self.control = command::setting(
                    self.control,
                    command,
                    &mut self.memory,
                    &mut self.page,
                );
            }
        }
    }

    // A direct admission or a start.
    fn settle(&mut self, u: &mut Station, command: Command) {
        let m = &mut self.memory;
        let r = if command == Command::Admit {
            command::admit(u, self.control, m.words.as_slice(), &mut m.out)
        } else {
            command::start(u, m)
        };
        *u = r.station;
        self.settled(r.answer);
    }

    // What an admission or a start answers.
    fn settled(&mut self, a: Result<usize, Refusal>)
        ensures page { self.new.page ≡ lines_on self.old.page (answer_lines self.old.memory.out a) }
        ensures control { self.new.control ≡ closed (settled_by self.old.control (kept self.old.memory.words) a) }
    {
        let m = &self.memory;
        self.page.answer(&m.out, a);
        self.control = command::settled(self.control, m.words.as_slice(), a);
    }

    // Standard input to its end, at most 2^64 - 1 parts of 65,536 bytes. A last word that was cut short is malformed.
    fn read_all(&mut self, s: Station, from: Stdin) {
        let mut b = [0u8; 65536];
        let mut u = s;
        for _ in 0..u64::MAX {
            let n = text::read_full(from, &mut b);
            u = self.feed(u, &b[..n], n < 65536);
            if n < 65536 {
                if n % 4 != 0 {
                    self.page.word(3);
                }
                return;
            }
        }
    }
}

// The program `tape`, or `drive`, or `panel`, which takes all of `drive`'s commands, with the settings of `tape`. Were its first start refused, that alone would be printed.
// (No clause can say what standard output gets.)
pub fn run(from: Stdin, to: Stdout, drive: bool, panel: bool) {
    let r = station::start(preset::blank(), preset::tape_settings(), &[0; 64000]);
    let mut s = Session {
        control: action::first_control(drive, panel),
        memory: Memory {
            store: [0; 409600],
            queue: [0; 126976],
            out: [0; 8192],
            words: Words {
                words: [0; 8192],
                len: 0,
            },
            times: [1.0; 1088],
            payloads: preset::payloads(),
        },
        page: Page {
            to,
            text: text::Buffer {
                bytes: [0; 65536],
                end: 0,
            },
        },
    };
    match r.answer {
        Ok(_) => s.read_all(r.station, from),
        Err(no) => s.page.refusal(no),
    }
    s.page.flush();
}
