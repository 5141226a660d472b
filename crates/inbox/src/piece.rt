// A piece of a message, as a frame brings it.
ghost use Rattle.std.specs.Prelude.{◌≤◌, length};

// Where it starts in its message, and its bytes: at most the payload of a frame.
#[derive(Clone, Copy)]
pub struct Piece<'a> {
    pub offset: u16,
    pub bytes: &'a [u8],
    pub ghost in_frame: { length bytes.now ≤ 255 },
}
