// Texts of options.
#[cfg(test)]
mod tests {
    use kinds::answers::{Clash, Failure};
    use kinds::steps::AtStep;
    use options::parts::Stuck;
    use product::controller::controller_words;
    use product::telling::{Numbers, tell};
    use std::alloc::Global;
    use std::test::Fail;
    use texts::reading::read_options;

    // Each text has one line that cannot be read, and the number of that line.
    const UNREADABLE: [(&str, usize); 18] = [
        ("basic 0 create", 1),
        ("option a\noption a", 2),
        ("option", 1),
        ("option a b", 1),
        ("option a\n\nengine 0 create", 3),
        ("option a\nbasic x create", 2),
        ("option a\nbasic 4 create", 2),
        ("option a\n3 0 create", 2),
        ("option a\nbasic 0 move 0", 2),
        ("option a\nbasic 0 paint", 2),
        ("option a\nbasic 0 rules 65536 - -> 1", 2),
        ("option a\nbasic 0 rules 0 - -> -", 2),
        ("option a\nbasic 0 rules 0 - 1", 2),
        ("option a\nbasic 0 rules 0 - -> 1 2 3", 2),
        ("option a\nbasic 0 notes 0 - -> \"a\\x00b\"", 2),
        ("option a\nbasic 0 notes 0 - -> \"seventeen letters\"", 2),
        ("option a\nbasic 0 cell 8 0 0 -> 1", 2),
        ("option a\nbasic 0 cell 0 0 0 -> 32768", 2),
    ];

    #[test]
    fn unreadable_lines_are_told(rt: HostRuntime) {
        for (text, line) in UNREADABLE {
            let unreadable = read_options(rt.alloc(), text).err();
            assert_eq!(rt; unreadable.map(|unreadable| unreadable.line), Some(line));
        }
    }

    #[test]
    fn unreadable_lines_are_printed(rt: HostRuntime) -> Result<(), Fail> {
        let texts = [
            ("option", "line 1: the option has no name"),
            ("option a\n\nbasic 0 rules 0 - 1", "line 3: -> is expected"),
        ];
        for (text, line) in texts {
            let unreadable = read_options(rt.alloc(), text)
                .err()
                .expect(&rt, "it was read");
            let printed = format!(in rt.alloc(); "{unreadable}")?;
            assert_eq!(rt; printed.as_str(), line);
        }
        Ok(())
    }

    // The numbers of the fault that the text's options meet on a fresh controller.
    fn fault(heap: Global, text: &str) -> Option<Numbers> {
        let options = read_options(heap, text).ok()?;
        let mut run = Vec::from_elem(heap, 0u32, controller_words() as usize).ok()?;
        match options.put_on(&mut run) {
            Err(Failure::Fault(at)) => Some(tell(at.fault).into()),
            _ => None,
        }
    }

    // Each text, and the numbers of its fault.
    const FAULTS: [(&str, Numbers); 7] = [
        (
            "option a\ntiller 2 rules 0 - -> 1",
            Numbers {
                cause: 1,
                module: 2,
                sheet: 2,
                step: 0,
                part: 0,
                position: 0,
            },
        ),
        (
            "option a\nwinch 1 create\nwinch 1 create",
            Numbers {
                cause: 2,
                module: 1,
                sheet: 1,
                step: 0,
                part: 0,
                position: 0,
            },
        ),
        (
            "option a\nbasic 0 create\nbasic 1 create\nbasic 0 move 1",
            Numbers {
                cause: 2,
                module: 0,
                sheet: 1,
                step: 0,
                part: 0,
                position: 0,
            },
        ),
        (
            "option a\nbasic 0 create\nbasic 0 rules 0 - -> 5\nbasic 0 remove",
            Numbers {
                cause: 3,
                module: 0,
                sheet: 0,
                step: 0,
                part: 0,
                position: 0,
            },
        ),
        (
            "option a\nbasic 0 create\nbasic 0 notes 0 - -> \"n\" then notes 2 - -> \"m\"",
            Numbers {
                cause: 4,
                module: 0,
                sheet: 0,
                step: 1,
                part: 0,
                position: 1,
            },
        ),
        (
            "option a\nbasic 0 create\nbasic 0 rules 0 - -> 5 6\nbasic 0 rules 0 5 7 -> -",
            Numbers {
                cause: 5,
                module: 0,
                sheet: 0,
                step: 0,
                part: 1,
                position: 1,
            },
        ),
        (
            "option a\nbasic 3 create\nbasic 3 cell 2 3 -1 -> 4",
            Numbers {
                cause: 6,
                module: 0,
                sheet: 3,
                step: 0,
                part: 2,
                position: 19,
            },
        ),
    ];

    #[test]
    fn every_cause_is_told_with_its_place(rt: HostRuntime) {
        for (text, numbers) in FAULTS {
            assert_eq!(rt; fault(rt.alloc(), text), Some(numbers));
        }
    }

    // The tiller's line stands right behind the winch's, so the winch cannot be taken off.
    #[test]
    fn a_later_option_holds_an_earlier_one(rt: HostRuntime) -> Result<(), Fail> {
        let text =
            "option basic\nbasic 0 create\noption winch\nbasic 0 rules 0 - -> 1\noption tiller\nbasic 0 rules 1 - -> 2";
        let mut options = read_options(rt.alloc(), text)?;
        let stop = AtStep {
            step: 0,
            fault: Clash::Refused,
        };
        assert_eq!(rt; options.take_off(rt.alloc(), 1), Err(Stuck::By(stop)));
        assert_eq!(rt; options.row.len(), 3);
        Ok(())
    }
}
