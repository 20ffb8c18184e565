// The data area of an image by its blocks.
ghost use Rattle.std.specs.Prelude.{◌*◌, ◌≤◌, length};

// So many blocks of 256 bytes, from the first byte on; more bytes may stand behind them.
#[derive(Clone, Copy)]
pub struct Area<'a> {
    pub bytes: &'a [u8],
    pub blocks: usize,
    ghost whole: { 256 * blocks ≤ length bytes.now },
    ghost few: { blocks ≤ 16777215 },
}

impl<'a> Area<'a> {
    ghost use Rattle.std.specs.Prelude.{◌≡◌, ◌*◌, ◌≤◌, length};

    // The first `blocks` blocks of these bytes.
    pub fn new(bytes: &'a [u8], blocks: usize) -> Area<'a>
        requires whole { 256 * blocks ≤ length bytes.now }
        requires few { blocks ≤ 16777215 }
        ensures { (result.bytes ≡ bytes.entry) × (result.blocks ≡ blocks) }
    {
        Area { bytes, blocks }
    }
}
