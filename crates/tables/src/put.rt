// Putting a file's bytes into an output, one part after another: 16 bits, entries, sections, the whole.
ghost use Rattle.std.specs.Prelude.{◌≡◌, ◌*◌};
ghost use Rattle.moves.specs.Models.{as_control};
ghost use Rattle.outputs.specs.Appends.{Appends};
ghost use Rattle.tables.specs.Lists.{passing};
ghost use Rattle.tables.specs.Format.{bytes16, entries_bytes, move};
ghost use Rattle.tables.specs.Control.{state_number, is_move, file_of};
ghost use Rattle.tables.specs.Inner.{section_named, members_from, state_bytes, set_bytes, move_bytes};

use crate::entry::Section;
use moves::{Control, count_moves};
use outputs::Output;
use sets::StateSet;

// 16 bits.
fn put_bits16(out: &mut Output, v: usize)
    ensures { Appends out.old (bytes16 v) out.new }
{
    out.text(&v.to_le_bytes()[..2]);
}

// An entry of a section.
fn put_entry(out: &mut Output, section: Section, v: usize)
    ensures { Appends out.old ((section_named section 0).kind.bytes v) out.new }
{
    match section {
        Section::States => {
            put_bits16(out, v / 256);
            out.byte((v % 256) as u8);
        }
        Section::Starts | Section::Safe => put_bits16(out, v),
        Section::Moves => {
            put_bits16(out, v / 65536);
            put_bits16(out, v % 65536);
        }
    }
}

// The entries from * 65536 + s of a section, for the members s of x: with `from` 0 the state numbers,
// with a row's state its moves.
fn put_members(out: &mut Output, section: Section, from: u16, x: StateSet)
    ensures { Appends out.old (entries_bytes (section_named section 0).kind (members_from (from * 65536) x.words))
        out.new }
{
    let base = usize::from(from) * 65536;
    for s in 0..256 {
        if x.member(s) {
            put_entry(out, section, base + usize::from(s));
        }
    }
}

// The section of the members of x.
fn put_set(out: &mut Output, x: StateSet)
    ensures { Appends out.old (set_bytes x.words) out.new }
{
    put_bits16(out, usize::from(x.count()));
    put_members(out, Section::Starts, 0, x);
}

// The entries of the moves.
fn put_rows(out: &mut Output, moves: &[u64])
    ensures { Appends out.old (entries_bytes (move 0) (passing (is_move moves.now) 0 16777216)) out.new }
{
    for from in 0..256 {
        let row = StateSet::read(moves, 4 * usize::from(from));
        put_members(out, Section::Moves, from, row);
    }
}

// The section of the moves.
fn put_moves(out: &mut Output, moves: &[u64])
    ensures { Appends out.old (move_bytes moves.now) out.new }
{
    put_bits16(out, count_moves(moves));
    put_rows(out, moves);
}

// The entry of state s; an angle or a mode that is not there is 0.
fn state_from(control: &Control, s: usize) -> usize
    ensures { let c = as_control control.now in result ≡ state_number c.angles c.modes s }
{
    let angle = control.angles.get(s).copied().unwrap_or(0);
    let mode = control.modes.get(s).copied().unwrap_or(0);
    usize::from(angle.cast_unsigned()) * 256 + usize::from(mode)
}

// The entries of the states.
fn put_states(out: &mut Output, control: &Control)
    ensures { Appends out.old (state_bytes (as_control control.now)) out.new }
{
    for s in 0..usize::from(control.table.model.size) {
        put_entry(out, Section::States, state_from(control, s));
    }
}

// The whole file of a table.
pub fn put_file(out: &mut Output, control: &Control)
    ensures { Appends out.old (file_of (as_control control.now)) out.new }
{
    let model = control.table.model;
    put_bits16(out, usize::from(model.size));
    put_states(out, control);
    put_set(out, model.starts);
    put_set(out, model.safe);
    put_moves(out, control.table.moves);
}
