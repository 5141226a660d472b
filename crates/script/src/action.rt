// What a word asks for.
ghost use Rattle.std.specs.Prelude.{◌≡◌};
ghost use Rattle.script.specs.Actions.{is_end, ended, is_open, is_command, is_setting, ends_open, ends_burst, ends_setting, ends_post, ends_figures, rest_of, slot_of, asked, asked_of, named, by_number, command_of, level_word, other_word, action_of, is_shown, time_of, level_of, timed, leveled, opened, closed, first_control};

// A command whose words follow. The numbers are those of document 01, Words, of `drive` and of `panel`.
#[derive(Clone, Copy, PartialEq, Eq, Debug)]
pub enum Command {
    Receive = 2,
    Admit = 3,
    Start = 8,
    Clock = 9,
    Level = 10,
    Durations = 11,
    Payloads = 12,
    Post = 13,
    Dues = 15,
}

// What the program holds beside the station. command: the command whose words are being read; cells: how many are lent; now and level: the clock
// and the level from here on. drive: every command is there, not only the tape's; panel: the panel's questions too. (Two flags, and no enum of three
// programs: each command asks one of them alone.)
#[derive(Clone, Copy)]
pub struct Control {
    pub drive: bool,
    pub panel: bool,
    pub command: Option<Command>,
    pub cells: usize,
    pub now: f64,
    pub level: f32,
}

#[derive(Clone, Copy, PartialEq, Eq, Debug)]
pub enum Action {
    // A word of the open command.
    Push,
    // Malformed or out of place.
    Bad,
    Time,
    Level,
    // A command whose words follow.
    Open(Command),
    // The rest are the station's.
    Next,
    Sent,
    Close,
    Read,
    Free,
    Roster,
    SignOff,
    // A question of the panel's.
    Ask,
    // The panel fills a boat's directed queue.
    Fill,
}

pub fn first_control(drive: bool, panel: bool) -> Control
    ensures { result ≡ first_control drive panel }
{
    Control {
        drive,
        panel,
        command: None,
        cells: 10,
        now: 0.0,
        level: 0.0,
    }
}

// A word of kind 7, 14 or 15: it ends an open command.
fn is_end(w: u32) -> bool
    ensures { result ≡ is_end w }
{
    matches!(w / 268435456, 7 | 14 | 15)
}

// The open command that the word ends, which is run before the word is looked at.
pub fn ended(w: u32, c: Control) -> Option<Command>
    ensures command { result ≡ ended w c }
    ensures open { is_open result ≡ ends_open w c }
    ensures burst { is_command Command.Receive result ≡ ends_burst w c }
    ensures setting { is_setting result ≡ ends_setting w c }
    ensures post { is_command Command.Post result ≡ ends_post w c }
    ensures figures { is_command Command.Dues result ≡ ends_figures w c }
{
    if is_end(w) { c.command } else { None }
}

// The slot of a sign-off, bits 11-4.
pub fn slot_of(w: u32) -> u8
    ensures { result ≡ slot_of w }
{
    (w / 16 % 256) as u8
}

// The bits of a command above its four: the count of a closing, the cell of a reading or a freeing.
pub fn rest_of(w: u32) -> u32
    ensures { result ≡ rest_of w }
{
    w / 16 % 16777216
}

// The command is one of the program's, and no bit is set that is not named.
fn is_named(w: u32, c: Control) -> bool
    ensures { result ≡ named w c }
{
    let command = w % 16;
    let rest = w / 16 % 16777216;
    ((command <= 2) & (rest == 0))
        | (c.drive & ((command == 3) | ((7 <= command) & (command <= 13))) & (rest == 0))
        | (c.drive & ((command == 4) | (command == 14)) & (rest < 256))
        | (c.drive & ((command == 5) | (command == 6)))
        | (c.panel & (command == 15) & is_asked(rest))
}

// A question of the panel's: the silent boats (0), the boat in a slot (1), at which level one boat hears another (2), the dues (3),
// the lowest of a boat's last levels (4); or the filling of a boat's directed queue (5).
fn is_asked(rest: u32) -> bool
    ensures { result ≡ asked rest }
{
    (rest == 0)
        | ((rest % 16 == 1) & (rest < 4096))
        | ((rest % 16 == 2) & (rest < 1048576))
        | (rest == 3)
        | ((rest % 16 == 4) & (rest < 4096))
        | (rest % 16 == 5)
}

// The action of a named command.
fn by_number(w: u32) -> Action
    ensures { result ≡ by_number w }
{
    match w % 16 {
        0 => Action::Next,
        1 => Action::Sent,
        2 => Action::Open(Command::Receive),
        3 => Action::Open(Command::Admit),
        4 => Action::Close,
        5 => Action::Read,
        6 => Action::Free,
        7 => Action::Roster,
        8 => Action::Open(Command::Start),
        9 => Action::Open(Command::Clock),
        10 => Action::Open(Command::Level),
        11 => Action::Open(Command::Durations),
        12 => Action::Open(Command::Payloads),
        13 => Action::Open(Command::Post),
        14 => Action::SignOff,
        _ => asked_of(rest_of(w)),
    }
}

// The action of a command of the panel's own.
fn asked_of(rest: u32) -> Action
    ensures { result ≡ asked_of rest }
{
    if rest % 16 == 5 {
        Action::Fill
    } else if rest == 3 {
        Action::Open(Command::Dues)
    } else {
        Action::Ask
    }
}

fn command_of(w: u32, c: Control) -> Action
    ensures { result ≡ command_of w c }
{
    if is_named(w, c) {
        by_number(w)
    } else {
        Action::Bad
    }
}

fn level_word(w: u32) -> Action
    ensures { result ≡ level_word w }
{
    if w % 268435456 < 2048 {
        Action::Level
    } else {
        Action::Bad
    }
}

// A word of another kind belongs to the open command.
fn other_word(c: Control) -> Action
    ensures { result ≡ other_word c }
{
    if c.command.is_some() {
        Action::Push
    } else {
        Action::Bad
    }
}

pub fn action_of(w: u32, c: Control) -> Action
    ensures { result ≡ action_of w c }
{
    match w / 268435456 {
        7 => command_of(w, c),
        14 => Action::Time,
        15 => level_word(w),
        _ => other_word(c),
    }
}

// The action only shows something of the station.
pub fn is_shown(a: Action) -> bool
    ensures { result ≡ is_shown a }
{
    matches!(a, Action::Read | Action::Roster | Action::Ask)
}

// Eighths of a second.
pub fn timed(c: Control, w: u32) -> Control
    ensures { result ≡ timed c w }
{
    Control {
        now: (w % 268435456) as f64 / 8.0,
        ..c
    }
}

// Quarter decibels plus 800.
pub fn leveled(c: Control, w: u32) -> Control
    ensures { result ≡ leveled c w }
{
    let q = (w % 2048) as u16;
    Control {
        level: (q as f32 - 800.0) / 4.0,
        ..c
    }
}

// A command whose words follow.
pub fn opened(c: Control, command: Command) -> Control
    ensures { result ≡ opened c command }
{
    Control {
        command: Some(command),
        ..c
    }
}

// The open command has been run.
pub fn closed(c: Control) -> Control
    ensures { result ≡ closed c }
{
    Control { command: None, ..c }
}
