// The lines of a listing, appended to an output. Private to the crate.
ghost use Rattle.std.specs.Prelude.{◌<◌, ◌++◌, map, length};
ghost use Rattle.moves.specs.Models.{as_table, as_control};
ghost use Rattle.listings.specs.Text.{appended, decimal, parted};
ghost use Rattle.listings.specs.Listing.{refused_listing, model_line, safe_listing, safe_line, members_below, members_line};
ghost use Rattle.listings.specs.Listing.{reached_listing, reached_line, state_line};
ghost use Rattle.listings.specs.Inner.{gap};
ghost use Rattle.outputs.specs.Appends.{Appends};

use crate::put;
use crate::walk::{angle_at, mode_at, state_at, turn_at};
use moves::{Control, Model, Table};
use outputs::Output;
use sets::StateSet;

// The one line of a refused file.
pub fn refused_line(out: &mut Output, number: u8, offset: usize)
    ensures { Appends out.old (refused_listing number offset) out.new }
{
    put::number(out, b"refused ", number);
    out.text(b" at");
    put::number(out, b" ", offset);
    out.text(b"\n");
}

// Line 1.
fn model_line(out: &mut Output, table: &Table)
    ensures { Appends out.old (model_line (as_table table.now)) out.new }
{
    let Model { size, starts, safe } = table.model;
    put::number(out, b"model ", size);
    put::number(out, b" ", starts.count());
    put::number(out, b" ", safe.count());
    put::number(out, b" ", moves::count_moves(table.moves));
    out.text(b"\n");
}

// Line 2 of a safe run.
fn safe_line(out: &mut Output, j: usize, rules: u64, x: StateSet)
    ensures { Appends out.old (safe_line j rules x.words) out.new }
{
    put::number(out, b"safe ", j);
    out.text(b" rules");
    put::number(out, b" ", rules);
    out.text(b" members");
    put::number(out, b" ", x.count());
    out.text(b"\n");
}

// A member, after a space unless it is the first.
fn member(out: &mut Output, first: bool, s: u16)
    ensures { Appends out.old (gap first ++ decimal s) out.new }
{
    let space: &[u8] = if first { b"" } else { b" " };
    put::number(out, space, s);
}

// The members of a set, parted by one space.
fn members(out: &mut Output, x: StateSet)
    ensures { Appends out.old (parted (map decimal (members_below 256 x.words))) out.new }
{
    let mut first = true;
    for s in 0..256u16 {
        if x.member(s) {
            member(out, first, s);
            first = false;
        }
    }
}

// The last line of a safe run.
fn members_line(out: &mut Output, x: StateSet)
    ensures { Appends out.old (members_line x.words) out.new }
{
    members(out, x);
    out.byte(b'\n');
}

// The listing of a safe run.
pub fn safe_run(out: &mut Output, table: &Table, j: usize, rules: u64, x: StateSet)
    ensures { Appends out.old (safe_listing (as_table table.now) j rules x.words) out.new }
{
    model_line(out, table);
    safe_line(out, j, rules, x);
    members_line(out, x);
}

// Line 2 of a reached run.
fn reached_line(out: &mut Output, states: usize, rules: u64)
    ensures { Appends out.old (reached_line states rules) out.new }
{
    put::number(out, b"reached ", states);
    out.text(b" rules");
    put::number(out, b" ", rules);
    out.text(b"\n");
}

// The line of state i of a walk.
fn state_line(out: &mut Output, walk: &[u16], control: &Control, i: usize)
    requires { i < length walk.now }
    ensures { Appends out.old
        (state_line walk.now control.now.angles.now control.now.modes.now i) out.new }
{
    put::number(out, b"", i + 1);
    put::number(out, b" ", state_at(walk, i));
    put::number(out, b" ", angle_at(walk, control.angles, i));
    put::number(out, b" ", mode_at(walk, control.modes, i));
    put::number(out, b" ", turn_at(walk, control.angles, i));
    out.text(b"\n");
}

// A line for each state of a walk.
fn state_lines(out: &mut Output, walk: &[u16], control: &Control)
    ensures { Appends out.old
        (appended (length walk.now) (state_line walk.now control.now.angles.now control.now.modes.now))
        out.new }
{
    for i in 0..walk.len() {
        state_line(out, walk, control, i);
    }
}

// The listing of a reached run.
pub fn reached_run(out: &mut Output, control: &Control, rules: u64, walk: &[u16])
    ensures { Appends out.old (reached_listing (as_control control.now) rules walk.now) out.new }
{
    model_line(out, &control.table);
    reached_line(out, walk.len(), rules);
    state_lines(out, walk, control);
}
