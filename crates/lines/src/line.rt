ghost use Rattle.std.specs.Prelude.{◌≡◌, true, ◌↔◌, length, is_ok, if◌then◌else◌, Some, None, ◌==◌, nat_eq};
ghost use Rattle.kinds.specs.Bounded.{saturated};
ghost use Rattle.lines.specs.Line.{Form};

use thiserror::Error;

// The run is not as long as a line.
#[derive(Clone, Copy, Debug, PartialEq, Eq, Error)]
#[error("the run is not as long as a line")]
pub struct WrongLength;

// A type of the lines of a list. Every line fills the same number of words.
pub trait Line: Copy + Eq {
    ghost form: { Form Self };

    // The number of words of a line.
    fn words() -> u32
        ensures { result ≡ saturated form.width };

    // Fills the run with the line. A run of another length is refused, and left as found.
    fn write(self, run: &mut [u32]) -> Result<(), WrongLength>
        ensures told { is_ok result ≡ (length run.old == form.width) }
        ensures left { run.new ≡ (if nat_eq (length run.old) form.width then form.encode self else run.old) };

    // The line in the run, unless the run has another length.
    fn read(run: &[u32]) -> Option<Self>
        ensures { result ≡ (if nat_eq (length run.now) form.width then Some (form.decode run.now) else None) };

    // Whether the fields make a line.
    fn writable(self) -> bool
        ensures { result ≡ form.written self };

    // A line fills its words.
    ghost filled: { (l : Self) → length (form.encode l) ≡ form.width };

    // A line that was written is read back the same.
    ghost read_back: { (l : Self) → form.decode (form.encode l) ≡ l };

    // `==` of two lines is the form's test ...
    ghost compared: { (l m : Self) → Self.eq l m ≡ form.same l m };

    // ... which tells them as the same exactly if they are equal.
    ghost tells_same: { (l m : Self) → (form.same l m ≡ true) ↔ (l ≡ m) };
}
