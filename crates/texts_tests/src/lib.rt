// Tests of what names and faults print: each prints the whole of its text, and the write succeeds.
#![tactic(auto)]

#[cfg(test)]
mod tests {
    use drafts::fault::{ContentFault, RuleFault, Side};
    use meters::TooFewPanels;
    use std::fmt;
    use std::test::Fail;
    use terms::letter::{Letter, SYMBOLS};
    use terms::name::Name;
    use trees::fault::CheckFault;
    use words::fault::WordFault;

    // What is printed; a write that gives up fails the test.
    fn printed<T: fmt::Display + Drop>(rt: &HostRuntime, shown: T) -> Result<String, Fail> {
        format!(in rt.alloc(); "{shown}").map_err(|_| Fail::new("a write gives up"))
    }

    #[test]
    fn names_print_their_bytes(rt: HostRuntime) -> Result<(), Fail> {
        for bytes in [&b"a"[..], b"meet", b"a1b2c3d4e5f6"] {
            let name = Name::new(bytes).ok_or_else(|| Fail::new("no name"))?;
            assert_eq!(rt; printed(&rt, name)?.as_bytes(), bytes);
        }
        Ok(())
    }

    #[test]
    fn no_letters_print_their_number(rt: HostRuntime) -> Result<(), Fail> {
        let fault = Letter::try_from(SYMBOLS + 96).err();
        let fault = fault.ok_or_else(|| Fail::new("a letter past the last symbol"))?;
        assert_eq!(rt; printed(&rt, fault)?.as_str(), "4294967392 is no letter");
        Ok(())
    }

    #[test]
    fn word_faults_print_number_and_letter(rt: HostRuntime) -> Result<(), Fail> {
        let faults = [
            (
                WordFault::Length,
                "31: the word is empty or too long (letter 0)",
            ),
            (
                WordFault::Letter(1),
                "32: the number is no letter of a closed term (letter 1)",
            ),
            (
                WordFault::Whole(64),
                "33: the word is not one whole term (letter 64)",
            ),
            (
                WordFault::Sort(3),
                "34: the letter has not the sort due there (letter 3)",
            ),
            (WordFault::Cell(10), "35: the cell is unlawful (letter 10)"),
        ];
        for (fault, text) in faults {
            assert_eq!(rt; printed(&rt, fault)?.as_str(), text);
        }
        Ok(())
    }

    #[test]
    fn content_faults_print_their_number(rt: HostRuntime) -> Result<(), Fail> {
        let faults = [
            (ContentFault::RuleStands, "1: a rule stands already"),
            (ContentFault::MalformedName, "2: the name is malformed"),
            (ContentFault::NameTaken, "3: the name is taken"),
            (ContentFault::UndeclaredSort, "4: a sort is not declared"),
            (
                ContentFault::TooManyArguments,
                "5: there are more than four arguments",
            ),
            (
                ContentFault::BuiltInSort,
                "6: a constructor may not make numbers or truths",
            ),
            (
                ContentFault::WrongPromise,
                "7: the promise is no rule or too many",
            ),
            (ContentFault::NoNumberLeft, "8: no number is left"),
        ];
        for (fault, text) in faults {
            assert_eq!(rt; printed(&rt, fault)?.as_str(), text);
        }
        Ok(())
    }

    #[test]
    fn rule_faults_print_side_and_letter(rt: HostRuntime) -> Result<(), Fail> {
        let faults = [
            (
                RuleFault::NotAwaited,
                "11: no rule is awaited (left letter 0)",
            ),
            (
                RuleFault::Length(Side::Right),
                "12: the side is empty or too long (right letter 0)",
            ),
            (
                RuleFault::Letter(Side::Right, 12),
                "13: the number is no letter or an undeclared symbol (right letter 12)",
            ),
            (
                RuleFault::LeftCell(2),
                "14: a number cell stands on the left (left letter 2)",
            ),
            (
                RuleFault::Whole(Side::Left, 64),
                "15: the side is not one whole term (left letter 64)",
            ),
            (
                RuleFault::OtherFunction,
                "16: the left side is not of the function awaited (left letter 0)",
            ),
            (
                RuleFault::InnerFunction(5),
                "17: a function stands inside the left side (left letter 5)",
            ),
            (
                RuleFault::TwiceOnLeft(3),
                "18: a variable stands twice on the left (left letter 3)",
            ),
            (
                RuleFault::OnlyOnRight(1),
                "19: a variable stands on the right only (right letter 1)",
            ),
            (
                RuleFault::Sort(Side::Left, 4),
                "20: the letter has not the sort due there (left letter 4)",
            ),
            (
                RuleFault::NoRoom,
                "21: there is no room for the letters (left letter 0)",
            ),
        ];
        for (fault, text) in faults {
            assert_eq!(rt; printed(&rt, fault)?.as_str(), text);
        }
        Ok(())
    }

    #[test]
    fn sides_print_their_word(rt: HostRuntime) -> Result<(), Fail> {
        assert_eq!(rt; printed(&rt, Side::Left)?.as_str(), "left");
        assert_eq!(rt; printed(&rt, Side::Right)?.as_str(), "right");
        Ok(())
    }

    #[test]
    fn check_faults_print_number_and_function(rt: HostRuntime) -> Result<(), Fail> {
        let faults = [
            (
                CheckFault::RulesMissing(5),
                "22: rules are missing (function 5)",
            ),
            (CheckFault::NoTree(95), "23: there is no tree (function 95)"),
            (
                CheckFault::Incomplete(7),
                "24: the tree is not complete (function 7)",
            ),
        ];
        for (fault, text) in faults {
            assert_eq!(rt; printed(&rt, fault)?.as_str(), text);
        }
        Ok(())
    }

    #[test]
    fn a_short_buffer_prints_its_words(rt: HostRuntime) -> Result<(), Fail> {
        let text = printed(&rt, TooFewPanels)?;
        assert_eq!(rt; text.as_str(), "too few panels for the ticks");
        Ok(())
    }
}
