ghost use Rattle.lines.specs.Rule.{rule_form};
ghost use Rattle.std.proofs.Common.{rules};

use crate::line::{Line, WrongLength};

// A rule line: one word of any value.
#[derive(Clone, Copy, Debug, PartialEq, Eq)]
pub struct Rule(pub u32);

impl Line for Rule {
    ghost form = { rule_form };

    ghost filled = { Prim.search rules };

    ghost read_back = { Prim.search rules };

    ghost compared = { Prim.search rules };

    ghost tells_same = { Prim.search rules };

    fn words() -> u32 {
        1
    }

    fn write(self, run: &mut [u32]) -> Result<(), WrongLength> {
        if run.len() != 1 {
            return Err(WrongLength);
        }
        run.fill(self.0);
        Ok(())
    }

    fn read(run: &[u32]) -> Option<Rule> {
        match run {
            [rule] => Some(Rule(*rule)),
            _ => None,
        }
    }

    fn writable(self) -> bool {
        true
    }
}
