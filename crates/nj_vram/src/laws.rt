//! What the homes of addresses mean, each as the contract of a function that does nothing.

ghost use Rattle.std.specs.Prelude.{◌≡◌, ◌≢◌, ℕ, ◌+◌, ◌*◌, ◌%◌, ◌<◌, ◌≤◌, Bool, true, false};
ghost use Rattle.nj_vram.specs.Home.{home, got, written};
ghost use Rattle.nj_vram.specs.Laws.{IsMirror, IsSameTable, IsOtherTable, IsSized};
ghost use Rattle.nj_vram.specs.declared.Vram.{Vram};

/// Which addresses name the same byte, under either mirroring.
pub fn mirrors()
    ensures vertical_left { IsSameTable true 0x2800 0x2000 }
    ensures vertical_right { IsSameTable true 0x2C00 0x2400 }
    ensures vertical_two { IsOtherTable true 0x2000 0x2400 }
    ensures horizontal_upper { IsSameTable false 0x2400 0x2000 }
    ensures horizontal_lower { IsSameTable false 0x2C00 0x2800 }
    ensures horizontal_two { IsOtherTable false 0x2000 0x2800 }
    ensures repeated { (v : Bool) (n : ℕ) → n < 0xF00 → IsMirror v (0x3000 + n) (0x2000 + n) }
    ensures colours { (v : Bool) (n : ℕ) → n < 0x100 → IsMirror v (0x3F00 + n) (0x3F00 + n % 32) }
    ensures backdrops { (v : Bool) (n : ℕ) → n < 4 → IsMirror v (0x3F10 + 4 * n) (0x3F00 + 4 * n) }
{}

/// A write is read again at every address of its home, and changes no other home.
pub fn reads_after_writes()
    ensures cell { (m : Vram) (at value : ℕ) → IsSized m → 0x2000 ≤ at → at < 0x3F00 → got (written m at value) at ≡ value }
    ensures colour { (m : Vram) (at value : ℕ) → IsSized m → 0x3F00 ≤ at → at < 0x4000
        → got (written m at value) at ≡ value % 64 }
    ensures mirror { (m : Vram) (at value other : ℕ) → IsMirror m.vertical other at
        → got (written m at value) other ≡ got (written m at value) at }
    ensures other { (m : Vram) (at value other : ℕ) → home m.vertical other ≢ home m.vertical at
        → got (written m at value) other ≡ got m other }
    ensures sizes { (m : Vram) (at value : ℕ) → IsSized m → IsSized (written m at value) }
    ensures mirroring { (m : Vram) (at value : ℕ) → (written m at value).vertical ≡ m.vertical }
{}
