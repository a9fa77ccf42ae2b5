// Any order of the layers, and any height.
#[cfg(test)]
mod tests {
    use kinds::answers::{Clash, Failure};
    use kinds::kind::Kind;
    use kinds::steps::AtStep;
    use lines::rule::Rule;
    use lists::Lists;
    use lists::hunk::{Hunk, Lines, ListFault};
    use modules::{InModule, Module, ModuleFault, Modules};
    use pairs::{Pairs, Steps};
    use sheets::{Sheet, SheetChange, SheetFault, Sheets};
    use std::test::Fail;

    fn insert(start: u16, rule: u32) -> Hunk<Rule> {
        Hunk {
            start,
            old: Lines::Zero,
            new: Lines::One(Rule(rule)),
        }
    }

    fn within(module: u8, patch: Hunk<Rule>) -> InModule<Hunk<Rule>> {
        InModule {
            module: Module(module),
            patch,
        }
    }

    type PairsOverModules = Pairs<Modules<Lists<Rule>>>;

    #[test]
    fn pairs_over_modules(rt: HostRuntime) -> Result<(), Fail> {
        let mut run = vec![in rt.alloc(); 0u32; 363]?;
        let both = Steps::Two(within(0, insert(0, 7)), within(2, insert(0, 9)));
        assert_eq!(rt; PairsOverModules::apply(both, &mut run), Ok(()));
        assert_eq!(rt; run.len(), 363);
        assert!(rt; run[0] == 1 && run[1] == 7 && run[121] == 0 && run[242] == 1 && run[243] == 9);
        Ok(())
    }

    // The second step finds no line 5 in the winch's list: the fault tells step and module.
    #[test]
    fn places_from_below(rt: HostRuntime) -> Result<(), Fail> {
        let mut run = vec![in rt.alloc(); 0u32; 363]?;
        let bad = Steps::Two(within(0, insert(0, 8)), within(1, insert(5, 8)));
        let fault = AtStep {
            step: 1,
            fault: ModuleFault::Inside(Module(1), ListFault::PastEnd { length: 0 }),
        };
        assert_eq!(rt;
            PairsOverModules::apply(bad, &mut run),
            Err(Failure::Fault(fault))
        );
        Ok(())
    }

    #[test]
    fn wrong_length_is_left(rt: HostRuntime) {
        let mut short = [3u32; 5];
        let patch = Steps::One(within(0, insert(0, 7)));
        assert_eq!(rt;
            PairsOverModules::apply(patch, &mut short),
            Err(Failure::Length)
        );
        assert_eq!(rt; short, [3u32; 5]);
    }

    type SheetsOverSheets = Sheets<Sheets<Lists<Rule>>>;

    #[test]
    fn sheets_over_sheets(rt: HostRuntime) -> Result<(), Fail> {
        let mut run = vec![in rt.alloc(); 0u32; 1956]?;
        let inner = SheetChange::Create(Sheet(3));
        assert_eq!(rt;
            SheetsOverSheets::apply(SheetChange::Create(Sheet(1)), &mut run),
            Ok(())
        );
        assert_eq!(rt;
            SheetsOverSheets::apply(SheetChange::Inside(Sheet(1), inner), &mut run),
            Ok(())
        );
        assert_eq!(rt; run.len(), 1956);
        assert!(rt; run[489] == 1 && run[489 + 1 + 366] == 1);
        Ok(())
    }

    // A sheet of a sheet is absent: the fault tells both.
    #[test]
    fn faults_two_floors_down(rt: HostRuntime) -> Result<(), Fail> {
        let mut run = vec![in rt.alloc(); 0u32; 1956]?;
        assert_eq!(rt;
            SheetsOverSheets::apply(SheetChange::Create(Sheet(2)), &mut run),
            Ok(())
        );
        let remove = SheetChange::Inside(Sheet(2), SheetChange::Remove(Sheet(0)));
        let fault = SheetFault::Inside(Sheet(2), SheetFault::Absent(Sheet(0)));
        assert_eq!(rt;
            SheetsOverSheets::apply(remove, &mut run),
            Err(Failure::Fault(fault))
        );
        Ok(())
    }

    type ModulesOverPairs = Modules<Pairs<Pairs<Lists<Rule>>>>;

    fn two_lines(start: u16, first: u32, second: u32) -> Steps<Steps<Hunk<Rule>>> {
        Steps::One(Steps::Two(
            insert(start, first),
            insert(start.saturating_add(1), second),
        ))
    }

    // Two lines go in front of two others: the others move down by two.
    #[test]
    fn modules_over_pairs_over_pairs(rt: HostRuntime) {
        let p = InModule {
            module: Module(1),
            patch: two_lines(4, 1, 2),
        };
        let q = InModule {
            module: Module(1),
            patch: two_lines(0, 3, 4),
        };
        let moved = ModulesOverPairs::commute(p, q).ok().map(|(_, moved)| moved);
        assert!(rt;
            matches!(
                moved,
                Some(InModule {
                    module: Module(1),
                    patch: Steps::One(Steps::Two(Hunk { start: 6, .. }, Hunk { start: 7, .. },)),
                })
            )
        );
    }

    #[test]
    fn steps_that_touch_are_refused(rt: HostRuntime) {
        let p = InModule {
            module: Module(0),
            patch: Steps::One(Steps::One(insert(0, 1))),
        };
        let q = InModule {
            module: Module(0),
            patch: two_lines(0, 2, 3),
        };
        assert_eq!(rt; ModulesOverPairs::commute(p, q).err(), Some(Clash::Refused));
    }

    // A number on the way is too large: the first step would have to start at 65,536.
    #[test]
    fn too_far_on_the_way(rt: HostRuntime) {
        let p = Steps::One(insert(65535, 1));
        let q = Steps::One(insert(0, 2));
        assert_eq!(rt;
            Pairs::<Lists<Rule>>::commute(p, q).err(),
            Some(Clash::TooFar)
        );
    }
}
