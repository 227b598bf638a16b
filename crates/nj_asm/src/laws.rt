//! Laws of refusals and of listings, as the contracts of functions that do nothing.

ghost use Rattle.std.specs.Prelude.{◌≡◌, ◌+◌, ◌<◌, ◌≤◌, ◌∷◌, ℕ, true, List, length, drop, Ok, Err};
ghost use Rattle.std.specs.List.{All};
ghost use Rattle.nj_isa.specs.Table.{is_official};
ghost use Rattle.nj_asm_lines.specs.declared.syntax.Fault.{Fault};
ghost use Rattle.nj_asm_lines.specs.Grammar.{read_lines};
ghost use Rattle.nj_asm.specs.declared.refusals.AsmRefused.{AsmRefused};
ghost use Rattle.nj_asm.specs.Assembly.{refused, assembly_of};
ghost use Rattle.nj_asm.specs.FirstRefused.{IsFirstRefused};
ghost use Rattle.nj_asm.specs.Listing.{listing_of};
ghost use Rattle.nj_asm.specs.Instructions.{Instruction, IsInstruction, encoding, encodings, source_of};

use nj_lines::{lines_are_the_bytes, printed_numbers_have_no_line_feed};

/// Law: a source is refused exactly where one of its lines is, with the first such line's number, counted from 1, and
/// with that line's own fault.
pub fn the_first_refused_line_is_told()
    ensures told { (source : List ℕ) (n : ℕ) (fault : Fault) → IsFirstRefused (read_lines source) n fault
        → assembly_of source ≡ Err (refused fault (n + 1)) }
    ensures only { (source : List ℕ) (refusal : AsmRefused) → assembly_of source ≡ Err refusal
        → (n : ℕ) × (fault : Fault) × IsFirstRefused (read_lines source) n fault × (refusal ≡ refused fault (n + 1)) }
{}

/// Law: the listing of whole official instructions, each in its shortest form, is the source of the same bytes once its
/// columns of addresses and bytes are cut off and an `.org` of the origin stands before.
pub fn listed_instructions_assemble_again()
    ensures again { (origin : ℕ) (all : List Instruction) → origin < 65536 → origin + length (encodings all) ≤ 65536
        → All IsInstruction all
        → assembly_of (source_of origin (listing_of origin (encodings all)))
        ≡ Ok (record { origin = origin; bytes = encodings all }) }
{
    lines_are_the_bytes();
    printed_numbers_have_no_line_feed();
}

/// Law: the listed statement of a whole official instruction in its shortest form is a source of its bytes at $8000,
/// and each official opcode is reached so: some line assembles to an instruction with it, and is what the listing
/// gives back.
pub fn every_official_opcode_is_reached()
    ensures each { (i : Instruction) → IsInstruction i
        → assembly_of (drop 14 (listing_of 32768 (encoding i))) ≡ Ok (record { origin = 32768; bytes = encoding i }) }
    ensures reached { (opcode : ℕ) → opcode < 256 → is_official opcode ≡ true
        → (line : List ℕ) × (operand : List ℕ)
        × (assembly_of line ≡ Ok (record { origin = 32768; bytes = opcode ∷ operand }))
        × (drop 14 (listing_of 32768 (opcode ∷ operand)) ≡ line) }
{
    lines_are_the_bytes();
    printed_numbers_have_no_line_feed();
}
