//! The picture's own memory: 2 KiB of nametables and 32 colours, with the mirroring of the cartridge.
//! Each address from $2000 to $3FFF has one home; a mirror is another address of the same home.
#![tactic(auto)]

pub mod laws;

ghost use Rattle.std.specs.Prelude.{◌≡◌, ◌<◌, ◌≤◌};
ghost use Rattle.nj_vram.specs.Home.{blank, cell_of, colour_of, got, written};

/// Nametables and palette. Under vertical mirroring the tables lie side by side, else one above the other.
#[derive(Drop)]
pub struct Vram {
    /// The cartridge's mirroring is vertical.
    pub vertical: bool,
    /// The two nametables, 1 KiB each.
    pub cells: [u8; 2048],
    /// The palette's colours, six bits each.
    pub palette: [u8; 32],
}

impl Vram {
    /// Memory of zeros.
    #[tactic(auto, unfolding(crate::specs::Home::blank))]
    pub fn new(vertical: bool) -> Vram
        ensures { result ≡ blank vertical }
    {
        Vram {
            vertical,
            cells: [0; 2048],
            palette: [0; 32],
        }
    }

    /// The byte that an address of the picture's bus names; a colour has six bits.
    #[tactic(auto, unfolding(crate::specs::Home::got, crate::specs::Home::home))]
    pub fn get(&self, at: u16) -> u8
        requires from { 0x2000 ≤ at }
        requires below { at < 0x4000 }
        ensures byte { result ≡ got self.now at }
        ensures colour { 0x3F00 ≤ at → result < 64 }
    {
        if at < 0x3F00 {
            self.cells[cell(self.vertical, at)]
        } else {
            self.palette[colour(at)] % 64
        }
    }

    /// Writes the byte that an address of the picture's bus names; a colour keeps six bits.
    #[tactic(auto, unfolding(crate::specs::Home::written, crate::specs::Home::home))]
    pub fn set(&mut self, at: u16, value: u8)
        requires from { 0x2000 ≤ at }
        requires below { at < 0x4000 }
        ensures { self.new ≡ written self.old at value }
    {
        if at < 0x3F00 {
            self.cells[cell(self.vertical, at)] = value;
        } else {
            self.palette[colour(at)] = value % 64;
        }
    }
}

// The byte of the nametables that an address names.
#[tactic(auto, unfolding(crate::specs::Home::cell_of, crate::specs::Home::table_of))]
fn cell(vertical: bool, at: u16) -> usize
    ensures home { result ≡ cell_of vertical at }
    ensures within { result < 2048 }
{
    let table = if vertical {
        at / 1024 % 2
    } else {
        at / 2048 % 2
    };
    (table * 1024 + at % 1024) as usize
}

// The colour that an address names.
#[tactic(auto, unfolding(crate::specs::Home::colour_of))]
fn colour(at: u16) -> usize
    ensures home { result ≡ colour_of at }
    ensures within { result < 32 }
{
    if at % 32 >= 16 && at % 4 == 0 {
        (at % 16) as usize
    } else {
        (at % 32) as usize
    }
}

#[cfg(test)]
mod tests {
    use super::*;

    // Values from NESdev Wiki, "Mirroring" and "PPU palettes".
    #[test]
    fn mirrors_share_their_bytes(rt: HostRuntime) {
        let mut upright = Vram::new(true);
        let mut level = Vram::new(false);
        upright.set(0x2005, 7);
        level.set(0x2005, 9);
        assert_eq!(rt; upright.get(0x2805), 7);
        assert_eq!(rt; upright.get(0x2405), 0);
        assert_eq!(rt; level.get(0x2405), 9);
        assert_eq!(rt; level.get(0x2805), 0);
        assert_eq!(rt; level.get(0x3005), 9);
        level.set(0x3F10, 0xFF);
        level.set(0x3F11, 0x21);
        assert_eq!(rt; level.get(0x3F00), 0x3F);
        assert_eq!(rt; level.get(0x3F01), 0);
        assert_eq!(rt; level.get(0x3FF1), 0x21);
    }
}
