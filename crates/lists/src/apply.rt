// Applying a hunk to the words of a list, for every line type.
ghost use Rattle.std.specs.Prelude.{◌≡◌, ℕ, ◌+◌, ◌-◌, ◌*◌, ◌<◌, ◌≤◌, true, ◌&&◌, List, ◌++◌, length, drop, replicate, is_err, IfOk, Err, ◌==◌, slice_index};
ghost use Rattle.std.specs.List.{flat_map};
ghost use Rattle.kinds.specs.Bounded.{saturated, largest, roomy as has_room, outcome, Applied};
ghost use Rattle.kinds.specs.Laws.{most, Takes};
ghost use Rattle.kinds.specs.Parts.{part};
ghost use Rattle.kinds.specs.declared.answers.Failure.TheVariants.{Overfull};
ghost use Rattle.lists.specs.Hunk.{lines_of, count as count_of, first_differing, filled_up, lists as the_lists};

use crate::hunk::{Hunk, Lines, ListFault};
use kinds::answers::Failure;
use kinds::counts::{roomy, total};
use lines::line::Line;

// The largest number of lines that the words of a list hold.
pub const MOST_LINES: u32 = 120;

// The number of words of a list: its length, and its lines.
pub fn list_words<L: Line>() -> u32
    ensures { result ≡ saturated (the_lists L.Line.form).width }
{
    total(MOST_LINES, L::words(), 1)
}

// Whether the run holds this line.
fn holds<L: Line>(run: &[u32], line: L) -> bool
    ensures { result ≡ (length run.now == L.Line.form.width) && L.Line.form.same line (L.Line.form.decode run.now) }
{
    L::read(run).is_some_and(|found| line == found)
}

// The first place whose line is not the old one. The run holds as many lines as there are old ones, from the place `start` on.
fn first_difference<L: Line>(old: Lines<L>, start: u32, run: &[u32]) -> Option<u32>
    requires { (L.Line.form.width < largest) × ((length run.now ≡ count_of old * L.Line.form.width) × (start < largest)) }
    ensures { (ds : List L) → length ds ≡ count_of old → run.now ≡ flat_map L.Line.form.encode ds → result ≡ first_differing L.Line.form start (lines_of old) ds }
{
    match old {
        Lines::Zero => None,
        Lines::One(a) => { if holds(run, a) { None } else { Some(start) } }
        Lines::Two(a, b) => {
            let middle = L::words() as usize;
            if !holds(&run[0..middle], a) {
                Some(start)
            } else if !holds(&run[middle..], b) {
                Some(start + 1)
            } else {
                None
            }
        }
    }
}

// The length of the list that the hunk makes of a list of `len` lines, or what stops it.
fn next_len<L: Line>(h: Hunk<L>, len: u32, lines: &[u32]) -> Result<u32, Failure<ListFault>>
    requires { (most * L.Line.form.width + 1 < largest) × ((length lines.now ≡ most * L.Line.form.width) × (len ≤ most)) }
    ensures within { IfOk result (λ n. (h.start + count_of h.old ≤ len) × (n + count_of h.old ≡ len + count_of h.new) × (n ≤ most)) }
    ensures told { (d : List L) → length d ≡ len → lines.now ≡ filled_up L.Line.form d → result ≡ part (λ (e : List L). length e) (λ f. f) (outcome (the_lists L.Line.form) h d) }
{
    let start = h.start as u32;
    let end = start + h.old.count();
    if end > len {
        return Err(Failure::Fault(ListFault::PastEnd { length: len }));
    }
    let width = L::words() as usize;
    if let Some(at) = first_difference(
        h.old,
        start,
        &lines[start as usize * width..end as usize * width],
    ) {
        return Err(Failure::Fault(ListFault::Differs { at }));
    }
    let next = len - h.old.count() + h.new.count();
    if next > MOST_LINES {
        return Err(Failure::Overfull);
    }
    Ok(next)
}

// Makes room for `new` words in the place of the first `old` ones: what stands behind them moves, and zeros come in at the end.
fn make_room(run: &mut [u32], old: usize, new: usize)
    requires { (old ≤ length run.old) × (new ≤ length run.old) }
    ensures { (front behind : List ℕ) → length front ≡ old → run.old ≡ front ++ (behind ++ replicate (new - old) 0) → drop new run.new ≡ behind ++ replicate (old - new) 0 }
{
    if old < new {
        run.rotate_right(new - old);
    } else if new < old {
        run.rotate_left(old - new);
        let end = run.len() - (old - new);
        run[end..].fill(0);
    }
}

// Writes the lines at the front.
fn write_lines<L: Line>(lines: Lines<L>, run: &mut [u32])
    requires { (L.Line.form.width < largest) × (count_of lines * L.Line.form.width ≤ length run.old) }
    ensures { run.new ≡ flat_map L.Line.form.encode (lines_of lines) ++ drop (count_of lines * L.Line.form.width) run.old }
{
    let width = L::words() as usize;
    match lines {
        Lines::Zero => {}
        // Each run is as long as a line, so no write is refused.
        Lines::One(a) => {
            let _ = a.write(&mut run[0..width]);
        }
        Lines::Two(a, b) => {
            let _ = a.write(&mut run[0..width]);
            let _ = b.write(&mut run[width..width + width]);
        }
    }
}

// Puts the new lines in the place of the old ones, in a list that has `len` lines and then `next`.
fn replace<L: Line>(h: Hunk<L>, len: u32, next: u32, lines: &mut [u32])
    requires room { (most * L.Line.form.width + 1 < largest) × (length lines.old ≡ most * L.Line.form.width) }
    requires within { (h.start + count_of h.old ≤ len) × ((next + count_of h.old ≡ len + count_of h.new) × ((len ≤ most) × (next ≤ most))) }
    ensures { (d e : List L) → length d ≡ len → Takes (the_lists L.Line.form) h d e → lines.old ≡ filled_up L.Line.form d → lines.new ≡ filled_up L.Line.form e }
{
    let width = L::words() as usize;
    let start = h.start as usize * width;
    let end = len.max(next) as usize * width;
    let part = &mut lines[start..end];
    make_room(
        part,
        h.old.count() as usize * width,
        h.new.count() as usize * width,
    );
    write_lines(h.new, part);
}

// The words of a list become those of the list that the hunk makes of it, and stay as they are where it makes none.
// A run that tells more lines than it can hold is no list, and overfull.
pub fn apply_hunk<L: Line>(h: Hunk<L>, run: &mut [u32]) -> Result<(), Failure<ListFault>>
    ensures applied { Applied (the_lists L.Line.form) h run.old result run.new }
    ensures kept { is_err result ≡ true → run.new ≡ run.old }
    ensures longer { has_room (the_lists L.Line.form) (length run.old) ≡ true → most < slice_index run.old 0 → result ≡ Err Overfull }
{
    if !roomy(run, list_words::<L>()) {
        return Err(Failure::Length);
    }
    let len = run[0];
    if len > MOST_LINES {
        return Err(Failure::Overfull);
    }
    let next = next_len(h, len, &run[1..])?;
    replace(h, len, next, &mut run[1..]);
    run[0] = next;
    Ok(())
}
