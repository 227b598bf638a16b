//! Laws of the boards with banks, each the contract of a function that does nothing.

ghost use Rattle.std.specs.Prelude.{◌≡◌, ◌≤◌, ℕ, List, [], ◌∷◌, ◌++◌, length, true};
ghost use Rattle.nj_board.specs.Nrom.{byte_at as nrom_byte, put_at as nrom_put};
ghost use Rattle.nj_banked.specs.Banks.{Banks, bank_count, memory_in, IsBanks};
ghost use Rattle.nj_banked.specs.Banked.{byte_at, written, pattern_of, put_at, chosen_by};
ghost use Rattle.nj_banked.specs.Calls.{Call, Writes, after_calls, AreCalls, IsKept, ShowsUxrom, ShowsCnrom};

/// Calls keep what they may not change: program memory, the board, pattern ROM and all sizes. Where pattern memory is
/// RAM the picture sees all of it.
pub fn calls_keep_memories()
    ensures board { (m : Banks) (calls : List Call) → IsBanks m → AreCalls (bank_count m) calls
        → IsBanks (after_calls calls m) }
    ensures kept { (m : Banks) (calls : List Call) → IsBanks m → AreCalls (bank_count m) calls
        → IsKept m (after_calls calls m) }
    ensures ram { (m : Banks) → IsBanks m → m.chr_ram ≡ true → (pattern_of m ≡ m.chr) × (length m.chr ≡ 8192) }
{}

/// After every list of calls the processor reads UxROM's two windows, the chosen bank and the last; with CNROM it reads
/// program memory as NROM has it, and the picture sees the chosen bank. The bank that a write chooses is the one that
/// the written value and the byte read there name together.
pub fn calls_show_windows()
    ensures uxrom { (m : Banks) (calls : List Call) → IsBanks m → m.mapper ≡ 2 → AreCalls (bank_count m) calls
        → ShowsUxrom m.prg (after_calls calls m) }
    ensures cnrom { (m : Banks) (calls : List Call) → IsBanks m → m.mapper ≡ 3 → AreCalls (bank_count m) calls
        → ShowsCnrom m.prg m.chr (after_calls calls m) }
    ensures chosen { (m : Banks) (calls : List Call) (at value : ℕ) → 0x8000 ≤ at
        → (after_calls (calls ++ Writes at value ∷ []) m).bank ≡ chosen_by (after_calls calls m) at value }
{}

/// NROM is the board with one bank: its calls are those of a board without registers.
pub fn one_bank_is_nrom()
    ensures byte { (m : Banks) (at : ℕ) → m.mapper ≡ 0 → byte_at m at ≡ nrom_byte (memory_in m) at }
    ensures write { (m : Banks) (at value : ℕ) → IsBanks m → m.mapper ≡ 0 → written m at value ≡ m }
    ensures pattern { (m : Banks) → m.mapper ≡ 0 → pattern_of m ≡ m.chr }
    ensures put { (m : Banks) (at value : ℕ) → memory_in (put_at m at value) ≡ nrom_put (memory_in m) at value }
    ensures count { (m : Banks) → m.mapper ≡ 0 → bank_count m ≡ 1 }
{}
