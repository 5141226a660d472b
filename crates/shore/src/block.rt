// The station in numbers and arrays alone, laid out as C lays out the same structs: a host holds a Block and looks into none of it. Every
// byte in it is safe: a flag is a byte, false where it is 0. Structs of the station that are numbers and arrays already stand in it as they are.
// C has no Option and no enum with fields: such a value is a number that says whether it is there, and what it holds.
use inbox::cell::Cell;
use net::Totals;
use recent::Recent;
use stream::window::Window;

// level::Level: the decibels, where heard.
#[repr(C)]
#[derive(Clone, Copy)]
pub struct Reading {
    pub heard: u8,
    pub decibels: f32,
}

// Option<f64>: the seconds, where known.
#[repr(C)]
#[derive(Clone, Copy)]
pub struct Time {
    pub known: u8,
    pub seconds: f64,
}

// net::Wait: turn is 0 for idle, 1 for sending, any other for waiting for the reply that the next four say.
#[repr(C)]
#[derive(Clone, Copy)]
pub struct Await {
    pub turn: u8,
    pub slot: u8,
    pub relayfor: u8,
    pub tries: u8,
    pub turnbursts: u8,
    pub deadline: Time,
}

// net::Settings.
#[repr(C)]
#[derive(Clone, Copy)]
pub struct Setup {
    pub turnaround: f64,
    pub maxburst: f64,
    pub replyslack: f64,
    pub detect: f64,
    pub beaconevery: f64,
    pub quickbeacon: f64,
    pub idleroundgap: f64,
    pub durations: [f64; 4],
    pub thresholds: [f32; 17],
    pub margin: f32,
    pub relaysnr: f32,
    pub misslimit: u32,
    pub beaconlevel: u8,
    pub windowslots: u8,
    pub call: [u8; 7],
    pub name: [u8; 6],
    pub prime: u8,
    pub lead: f64,
    pub latency: f64,
    pub rooms: [u8; 17],
    pub payloads: [u8; 17],
}

// net::Round.
#[repr(C)]
#[derive(Clone, Copy)]
pub struct Course {
    pub list: u64,
    pub toack: u64,
    pub treenews: u64,
    pub windowend: f64,
    pub nextbeacon: f64,
    pub nextround: f64,
    pub txat: f64,
    pub number: u32,
    pub rxsent: u32,
    pub closeleft: u32,
    pub closed: u8,
    pub traffic: u8,
    pub rxdirty: u8,
    pub activity: u8,
}

// roster::Member.
#[repr(C)]
#[derive(Clone, Copy)]
pub struct Boat {
    pub call: [u8; 7],
    pub via: u8,
    pub hascaps: u8,
    pub caps: u8,
    pub hasversion: u8,
    pub version: u8,
    pub burst: u8,
    pub toldbits: u8,
    pub markbits: u8,
    pub missed: u32,
    pub toldnext: u32,
    pub marknext: u32,
    pub bytesin: u32,
    pub snrup: Reading,
    pub snrdown: Reading,
    pub direct: Reading,
    pub lastheard: Time,
    pub up: Window,
    pub tried: u64,
}

// queue::Queue.
#[repr(C)]
#[derive(Clone, Copy)]
pub struct Line {
    pub posted: u32,
    pub kept: u32,
    pub reported: u32,
    pub round: u32,
    pub sent: u8,
}

// net::Station.
#[repr(C)]
#[derive(Clone, Copy)]
pub struct Block {
    pub settings: Setup,
    pub wait: Await,
    pub round: Course,
    pub totals: Totals,
    pub used: u64,
    pub busy: u64,
    pub landed: u64,
    pub count: usize,
    pub members: [Boat; 62],
    pub recent: [Recent; 62],
    pub queues: [Line; 62],
    pub hears: [u8; 3844],
    pub owners: [u64; 64],
    pub cells: [Cell; 64],
}
