// The settings of `tape` (document 01, Words), and a station for a first start.
#![tactic(auto)]

ghost use Rattle.std.specs.Prelude.{◌≡◌};
ghost use Rattle.preset.specs.Tape.{ladder, payloads, tape_settings, blank};

use config::Given;
use net::Settings;

// A station for a first start.
pub fn blank() -> net::Station
    ensures { result ≡ blank }
{
    net::new(config::settings_of(tape_settings()), 0)
}

// -20 + 2 * level.
fn ladder() -> [f32; 17]
    ensures { result ≡ ladder }
{
    [
        -20.0, -18.0, -16.0, -14.0, -12.0, -10.0, -8.0, -6.0, -4.0, -2.0, 0.0, 2.0, 4.0, 6.0, 8.0,
        10.0, 12.0,
    ]
}

// The Rust's largest payloads: 22 bytes for levels 0 to 4, 170 for levels 5 to 16.
pub fn payloads() -> [u8; 17]
    ensures { result ≡ payloads }
{
    [
        22, 22, 22, 22, 22, 170, 170, 170, 170, 170, 170, 170, 170, 170, 170, 170, 170,
    ]
}

// The settings of `tape`: call `0`, name `PORT`, `prime` false, the rest of NetConfig::new.
pub fn tape_settings() -> Given
    ensures { result ≡ tape_settings }
{
    let thresholds = ladder();
    let durations = [1.0f64; 4];
    let nobody = [32u8; 7];
    let none = [0u8; 17];
    let name = [b'P', b'O', b'R', b'T', b' ', b' '];
    let g = Settings {
        turnaround: 0.3,
        maxburst: 8.0,
        replyslack: 1.0,
        detect: 1.0,
        beaconevery: 300.0,
        quickbeacon: 45.0,
        idleroundgap: 15.0,
        durations: durations,
        thresholds: thresholds,
        margin: 1.0,
        relaysnr: -8.0,
        misslimit: 2,
        beaconlevel: 0,
        windowslots: 4,
        call: nobody,
        name: name,
        prime: false,
        lead: 0.0,
        latency: 0.0,
        rooms: none,
        payloads: none,
    };
    // 3010936384, the call `0`.
    let call = wire::calls::bytes_of(3010936384);
    let times = [1.0f64; 1088];
    let payloads = payloads();
    Given {
        settings: g,
        call: call,
        times: times,
        payloads: payloads,
    }
}
