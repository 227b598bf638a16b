//! What the definitions of dots and accesses mean, each as the contract of a function that does nothing.

ghost use Rattle.std.specs.Prelude.{◌≡◌, ℕ, ◌+◌, ◌-◌, ◌*◌, ◌/◌, ◌%◌, ◌<◌, ◌≤◌, Bool, true, false, not, List, length, take, drop};
ghost use Rattle.nj_dots.specs.declared.screen.Screen.{Screen};
ghost use Rattle.nj_dots.specs.Scroll.{IsScroll, next_column, next_row};
ghost use Rattle.nj_dots.specs.Screen.{IsScreen, is_rendering};
ghost use Rattle.nj_dots.specs.Dots.{after_dots, dot_of, to_event};
ghost use Rattle.nj_dots.specs.Registers.{after_read, after_write};
ghost use Rattle.nj_dots.specs.Image.{Holds, picture_bytes, with_picture};
ghost use Rattle.nj_dots.specs.Laws.{ChangesTimingAlone, IsEvent, IsHitPlace, IsNext, IsOverflow, IsStart, frame_length, other_across, other_down, repeated};

/// From (0,0) to the next (0,0), with no access between, there are 89,342 dots, and 89,341 in an odd frame with
/// rendering on; the parity changes there (NESdev Wiki, "PPU frame timing").
pub fn frames_have_their_dots()
    ensures ends { (p : List ℕ) (s : Screen) → IsScreen s → IsStart s → IsStart (after_dots (frame_length s) p s) }
    ensures first { (p : List ℕ) (s : Screen) (k : ℕ) → IsScreen s → IsStart s → 0 < k → k < frame_length s
        → IsStart (after_dots k p s) → ⊥ }
    ensures parity { (p : List ℕ) (s : Screen) → IsScreen s → IsStart s
        → (after_dots (frame_length s) p s).odd_frame ≡ not s.odd_frame }
    ensures skipped { (s : Screen) → s.odd_frame ≡ true → is_rendering s.mask ≡ true → frame_length s ≡ 89341 }
    ensures even { (s : Screen) → s.odd_frame ≡ false → frame_length s ≡ 89342 }
    ensures off { (s : Screen) → is_rendering s.mask ≡ false → frame_length s ≡ 89342 }
{}

/// Of all dots and accesses only dot (241,1) raises the vertical blank flag, unless it is held, and only dot (261,1)
/// and a read of $2002 lower it (NESdev Wiki, "PPU registers", $2002).
pub fn vertical_blank_is_timed()
    ensures risen { (p : List ℕ) (s : Screen) → s.vertical_blank ≡ false → (dot_of p s).vertical_blank ≡ true
        → IsNext 241 1 s }
    ensures fallen { (p : List ℕ) (s : Screen) → s.vertical_blank ≡ true → (dot_of p s).vertical_blank ≡ false
        → IsNext 261 1 s }
    ensures rises { (p : List ℕ) (s : Screen) → IsNext 241 1 s → s.hold ≡ false → (dot_of p s).vertical_blank ≡ true }
    ensures falls { (p : List ℕ) (s : Screen) → IsNext 261 1 s → (dot_of p s).vertical_blank ≡ false }
    ensures read_raises_none { (reg : ℕ) (p : List ℕ) (s : Screen) → s.vertical_blank ≡ false
        → (after_read reg p s).vertical_blank ≡ false }
    ensures read_lowers { (reg : ℕ) (p : List ℕ) (s : Screen) → s.vertical_blank ≡ true
        → (after_read reg p s).vertical_blank ≡ false
        → reg ≡ 2 }
    ensures read_of_status { (p : List ℕ) (s : Screen) → (after_read 2 p s).vertical_blank ≡ false }
    ensures write { (reg value : ℕ) (s : Screen) → (after_write reg value s).vertical_blank ≡ s.vertical_blank }
{}

/// With rendering off a dot leaves each cell, register and latch as it was.
pub fn rendering_off_leaves_memory()
    ensures { (p : List ℕ) (s : Screen) → is_rendering s.mask ≡ false → ChangesTimingAlone s (dot_of p s) }
{}

/// With w clear, two writes of $2006 set v to their 14 bits, high byte first (NESdev Wiki, "PPU scrolling").
pub fn address_takes_two_writes()
    ensures { (s : Screen) (high low : ℕ) → s.scroll.w ≡ false → low < 256
        → (after_write 6 low (after_write 6 high s)).scroll.v ≡ high % 64 * 256 + low }
{}

/// 32 steps of coarse X come back to the column in the other nametable across; from a coarse Y of at most 29 the
/// 240 lines of 30 rows come back to the line in the other nametable down (NESdev Wiki, "PPU scrolling", "Wrapping
/// around").
pub fn steps_come_round()
    ensures across { (v : ℕ) → repeated 32 next_column v ≡ other_across v }
    ensures down { (v : ℕ) → v < 32768 → v / 32 % 32 ≤ 29 → repeated 240 next_row v ≡ other_down v }
{}

/// Dots and accesses keep the bits of the scroll registers, v and t 15, fine X three.
pub fn scroll_registers_keep_their_bits()
    ensures dot { (p : List ℕ) (s : Screen) → IsScroll s.scroll → IsScroll (dot_of p s).scroll }
    ensures read { (reg : ℕ) (p : List ℕ) (s : Screen) → IsScroll s.scroll → IsScroll (after_read reg p s).scroll }
    ensures write { (reg value : ℕ) (s : Screen) → value < 256 → IsScroll s.scroll
        → IsScroll (after_write reg value s).scroll }
{}

/// No dot and no access changes the mirroring.
pub fn mirroring_stays()
    ensures dots { (n : ℕ) (p : List ℕ) (s : Screen) → (after_dots n p s).vram.vertical ≡ s.vram.vertical }
    ensures read { (reg : ℕ) (p : List ℕ) (s : Screen) → (after_read reg p s).vram.vertical ≡ s.vram.vertical }
    ensures write { (reg value : ℕ) (s : Screen) → (after_write reg value s).vram.vertical ≡ s.vram.vertical }
{}

/// The hit flag rises only by the dot after a hit pixel, which is never pixel 255 nor one of hidden left columns
/// (NESdev Wiki, "PPU OAM", "Sprite zero hits").
pub fn sprite_zero_hits_are_timed()
    ensures risen { (p : List ℕ) (s : Screen) → s.sprite_zero_hit ≡ false → (dot_of p s).sprite_zero_hit ≡ true
        → s.near ≡ true }
    ensures near { (p : List ℕ) (s : Screen) → (dot_of p s).near ≡ true → IsHitPlace s }
{}

/// Of all dots and accesses only dot 257 of a visible line with rendering on raises the overflow flag, where at least
/// nine sprites have the line as one of theirs, and only dot (261,1) lowers it.
pub fn sprite_overflow_is_timed()
    ensures risen { (p : List ℕ) (s : Screen) → s.sprite_overflow ≡ false → (dot_of p s).sprite_overflow ≡ true
        → IsOverflow s }
    ensures rises { (p : List ℕ) (s : Screen) → IsOverflow s → (dot_of p s).sprite_overflow ≡ true }
    ensures fallen { (p : List ℕ) (s : Screen) → s.sprite_overflow ≡ true → (dot_of p s).sprite_overflow ≡ false
        → IsNext 261 1 s }
    ensures falls { (p : List ℕ) (s : Screen) → IsNext 261 1 s → (dot_of p s).sprite_overflow ≡ false }
    ensures read { (reg : ℕ) (p : List ℕ) (s : Screen) → (after_read reg p s).sprite_overflow ≡ s.sprite_overflow }
    ensures write { (reg value : ℕ) (s : Screen) → (after_write reg value s).sprite_overflow ≡ s.sprite_overflow }
{}

/// `to_event` counts the dots up to the next one at which the vertical blank flag changes.
pub fn events_are_counted()
    ensures event { (p : List ℕ) (s : Screen) → IsScreen s → IsEvent (after_dots (to_event s - 1) p s) }
    ensures no_earlier { (p : List ℕ) (s : Screen) (k : ℕ) → IsScreen s → k + 1 < to_event s
        → IsEvent (after_dots k p s) → ⊥ }
    ensures some { (s : Screen) → IsScreen s → 0 < to_event s }
{}

/// For one mirroring, a picture with no end marked and its bytes determine each other, and nothing else of an image
/// changes.
pub fn images_hold_pictures()
    ensures same { (s e : Screen) → IsScreen s → IsScreen e → s.ended ≡ false → e.ended ≡ false
        → s.vram.vertical ≡ e.vram.vertical → picture_bytes s ≡ picture_bytes e → s ≡ e }
    ensures stored { (s : Screen) (image : List ℕ) → IsScreen s → s.ended ≡ false → 4448 ≤ length image
        → Holds (with_picture s image) s }
    ensures before { (s : Screen) (image : List ℕ) → 4448 ≤ length image
        → take 2048 (with_picture s image) ≡ take 2048 image }
    ensures behind { (s : Screen) (image : List ℕ) → IsScreen s → 4448 ≤ length image
        → drop 4448 (with_picture s image) ≡ drop 4448 image }
    ensures size { (s : Screen) (image : List ℕ) → IsScreen s → 4448 ≤ length image
        → length (with_picture s image) ≡ length image }
{}
