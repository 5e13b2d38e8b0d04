// Tests of drafts: every refusal with its number and place, and the exact bounds.
#![tactic(auto)]

#[cfg(test)]
mod tests {
    use drafts::draft::{Draft, LONGEST_SIDE};
    use drafts::fault::{ContentFault, RuleFault, Side};
    use std::test::Fail;
    use terms::letter::{PLUS, SYMBOLS, TRUE, VARIABLES};

    // The letters of what these tests declare, and of their variables; the tour and the tests of other crates name their own.
    const ZERO: u64 = SYMBOLS + 5;

    const UP: u64 = SYMBOLS + 6;

    const MEET: u64 = SYMBOLS + 7;

    const LAST: u64 = SYMBOLS + 8;

    const X: u64 = VARIABLES;

    const Y: u64 = VARIABLES + 1;

    const NUMBER: u64 = 0;

    const LEVEL: u64 = 2;

    // The next sort after level, which no draft of levels declares.
    const NO_SORT: u64 = 3;

    // The number of a refusal of contents; 0 where nothing was refused.
    fn content(answer: Result<u8, ContentFault>) -> u8 {
        answer.err().map_or(0, |fault| fault.number())
    }

    // The number of a refusal of a rule, and the side and index that it names.
    fn rule(answer: Result<usize, RuleFault>) -> Option<(u8, Side, usize)> {
        answer.err().map(|fault| fault.numbered())
    }

    // The sort level with zero, up and meet, which promises three rules, and last, which promises one.
    fn declared() -> Result<Draft, ContentFault> {
        let mut draft = Draft::new();
        draft.declare_sort(b"level")?;
        draft.declare_constructor(b"zero", &[], 2)?;
        draft.declare_constructor(b"up", &[2], 2)?;
        draft.declare_function(b"meet", &[2, 2], 2, 3)?;
        draft.declare_function(b"last", &[0], 2, 1)?;
        Ok(draft)
    }

    // Other tests and the tour make such drafts too, each by the calls that it shows.
    fn levels() -> Result<Draft, Fail> {
        declared().map_err(|_| Fail::new("the levels are refused"))
    }

    #[test]
    fn names_are_refused(rt: HostRuntime) {
        let mut draft = Draft::new();
        assert_eq!(rt; content(draft.declare_sort(b"")), 2);
        assert_eq!(rt; content(draft.declare_sort(b"Level")), 2);
        assert_eq!(rt; content(draft.declare_sort(b"1level")), 2);
        assert_eq!(rt; content(draft.declare_sort(b"abcdefghijklm")), 2);
        assert_eq!(rt; content(draft.declare_sort(b"abcdefghijkl")), 0);
        assert_eq!(rt; content(draft.declare_sort(b"abcdefghijkl")), 3);
        assert_eq!(rt; content(draft.declare_sort(b"truth")), 3);
        assert_eq!(rt; content(draft.declare_sort(b"plus")), 3);
        assert_eq!(rt; content(draft.declare_sort(b"end")), 3);
    }

    #[test]
    fn symbols_are_refused(rt: HostRuntime) -> Result<(), Fail> {
        let mut draft = levels()?;
        assert_eq!(rt; content(draft.declare_constructor(b"a", &[0, 3], 2)), 4);
        assert_eq!(rt;
            content(draft.declare_constructor(b"a", &[0, 0, 0, 0, 0, 9], 2)),
            4
        );
        assert_eq!(rt;
            content(draft.declare_constructor(b"a", &[], 0xFFFF_FFFF_FFFF_FFFF)),
            4
        );
        assert_eq!(rt;
            content(draft.declare_constructor(b"a", &[0, 0, 0, 0, 0], 2)),
            5
        );
        assert_eq!(rt; content(draft.declare_constructor(b"a", &[0], 1)), 6);
        assert_eq!(rt;
            content(draft.declare_constructor(b"a", &[0, 1, 2, 0], 2)),
            0
        );
        assert_eq!(rt; content(draft.declare_function(b"b", &[], 0, 0)), 7);
        assert_eq!(rt; content(draft.declare_function(b"b", &[], 0, 93)), 7);
        assert_eq!(rt; content(draft.declare_function(b"b", &[], 0, 92)), 0);
        assert_eq!(rt; content(draft.declare_function(b"c", &[], 0, 1)), 7);
        Ok(())
    }

    // The numbers of the refusals of a symbol: as a constructor, and as a function of one rule.
    fn symbol(draft: &mut Draft, name: &[u8], args: &[u64], sort: u64) -> (u8, u8) {
        let constructor = content(draft.declare_constructor(name, args, sort));
        let function = content(draft.declare_function(name, args, sort, 1));
        (constructor, function)
    }

    #[test]
    fn constructors_and_functions_are_refused_alike(rt: HostRuntime) -> Result<(), Fail> {
        let mut draft = levels()?;
        assert_eq!(rt; symbol(&mut draft, b"", &[], LEVEL), (2, 2));
        assert_eq!(rt; symbol(&mut draft, b"Top", &[], LEVEL), (2, 2));
        assert_eq!(rt; symbol(&mut draft, b"level", &[], LEVEL), (3, 3));
        assert_eq!(rt; symbol(&mut draft, b"up", &[], LEVEL), (3, 3));
        assert_eq!(rt; symbol(&mut draft, b"rules", &[], LEVEL), (3, 3));
        assert_eq!(rt; symbol(&mut draft, b"a", &[NUMBER, NO_SORT], LEVEL), (4, 4));
        assert_eq!(rt; symbol(&mut draft, b"a", &[], NO_SORT), (4, 4));
        assert_eq!(rt; symbol(&mut draft, b"a", &[], u64::MAX), (4, 4));
        assert_eq!(rt;
            symbol(&mut draft, b"a", &[NUMBER, 0, 0, 0, 0, NO_SORT], LEVEL),
            (4, 4)
        );
        assert_eq!(rt; symbol(&mut draft, b"a", &[NUMBER; 5], LEVEL), (5, 5));
        assert_eq!(rt; rule(draft.add_rule(&[MEET, X, Y], &[X])), None);
        assert_eq!(rt; symbol(&mut draft, b"a", &[], LEVEL), (1, 1));
        Ok(())
    }

    #[test]
    fn four_arguments_fit(rt: HostRuntime) -> Result<(), Fail> {
        let mut draft = levels()?;
        assert_eq!(rt;
            content(draft.declare_constructor(b"a", &[NUMBER; 4], LEVEL)),
            0
        );
        assert_eq!(rt;
            content(draft.declare_function(b"b", &[LEVEL; 4], NUMBER, 1)),
            0
        );
        assert_eq!(rt; content(draft.declare_constructor(b"c", &[], NUMBER)), 6);
        Ok(())
    }

    #[test]
    fn lengths_are_refused_on_both_sides(rt: HostRuntime) -> Result<(), Fail> {
        let mut draft = levels()?;
        let long = [X; LONGEST_SIDE + 1];
        let left = Some((12, Side::Left, 0));
        let right = Some((12, Side::Right, 0));
        assert_eq!(rt; rule(draft.add_rule(&[], &[X])), left);
        assert_eq!(rt; rule(draft.add_rule(&long, &[X])), left);
        assert_eq!(rt; rule(draft.add_rule(&[], &[])), left);
        assert_eq!(rt; rule(draft.add_rule(&[MEET, X, Y], &[])), right);
        assert_eq!(rt; rule(draft.add_rule(&[MEET, X, Y], &long)), right);
        Ok(())
    }

    #[test]
    fn parts_are_refused_on_both_sides(rt: HostRuntime) -> Result<(), Fail> {
        let mut draft = levels()?;
        assert_eq!(rt;
            rule(draft.add_rule(&[MEET, X], &[X])),
            Some((15, Side::Left, 2))
        );
        assert_eq!(rt;
            rule(draft.add_rule(&[MEET, X, Y, X], &[X])),
            Some((15, Side::Left, 3))
        );
        assert_eq!(rt;
            rule(draft.add_rule(&[MEET, X, Y], &[MEET, X])),
            Some((15, Side::Right, 2))
        );
        assert_eq!(rt;
            rule(draft.add_rule(&[MEET, X, Y], &[X, Y])),
            Some((15, Side::Right, 1))
        );
        Ok(())
    }

    // A name of two letters.
    fn name(first: u8, second: u8) -> [u8; 2] {
        [97 + first % 26, 97 + second % 26]
    }

    #[test]
    fn numbers_run_out(rt: HostRuntime) {
        let mut draft = Draft::new();
        // By number, here and below: each number makes a name.
        for i in 0..14u8 {
            let sort = name(25, i);
            assert_eq!(rt; content(draft.declare_sort(&sort)), 0);
        }
        assert_eq!(rt; content(draft.declare_sort(b"more")), 8);
        for i in 0..91u8 {
            let symbol = name(i / 26, i);
            assert_eq!(rt; content(draft.declare_constructor(&symbol, &[], 2)), 0);
        }
        assert_eq!(rt; content(draft.declare_constructor(b"more", &[], 2)), 8);
        assert_eq!(rt; content(draft.declare_function(b"more", &[], 0, 1)), 8);
    }

    #[test]
    fn rules_are_refused(rt: HostRuntime) -> Result<(), Fail> {
        let mut draft = levels()?;
        let long = [X; 65];
        let mut none = Draft::new();
        assert_eq!(rt;
            rule(none.add_rule(&[MEET], &[])),
            Some((11, Side::Left, 0))
        );
        assert_eq!(rt; rule(draft.add_rule(&[], &[])), Some((12, Side::Left, 0)));
        assert_eq!(rt;
            rule(draft.add_rule(&[5], &long)),
            Some((12, Side::Right, 0))
        );
        assert_eq!(rt;
            rule(draft.add_rule(&[MEET, X + 8], &[X])),
            Some((13, Side::Left, 1))
        );
        assert_eq!(rt;
            rule(draft.add_rule(&[5], &[X, LAST + 1])),
            Some((13, Side::Right, 1))
        );
        assert_eq!(rt;
            rule(draft.add_rule(&[MEET, X, 5, Y], &[X])),
            Some((14, Side::Left, 2))
        );
        assert_eq!(rt;
            rule(draft.add_rule(&[MEET, X], &[X])),
            Some((15, Side::Left, 2))
        );
        assert_eq!(rt;
            rule(draft.add_rule(&[MEET, X, Y], &[X, Y])),
            Some((15, Side::Right, 1))
        );
        assert_eq!(rt;
            rule(draft.add_rule(&[LAST, X], &[ZERO])),
            Some((16, Side::Left, 0))
        );
        Ok(())
    }

    #[test]
    fn shapes_are_refused(rt: HostRuntime) -> Result<(), Fail> {
        let mut draft = levels()?;
        assert_eq!(rt;
            rule(draft.add_rule(&[MEET, ZERO, PLUS, X, Y], &[X])),
            Some((17, Side::Left, 2))
        );
        assert_eq!(rt;
            rule(draft.add_rule(&[MEET, X, UP, X], &[X])),
            Some((18, Side::Left, 3))
        );
        assert_eq!(rt;
            rule(draft.add_rule(&[MEET, X, ZERO], &[MEET, X, Y])),
            Some((19, Side::Right, 2))
        );
        assert_eq!(rt;
            rule(draft.add_rule(&[MEET, X, TRUE], &[X])),
            Some((20, Side::Left, 2))
        );
        assert_eq!(rt;
            rule(draft.add_rule(&[MEET, X, ZERO], &[UP, 5])),
            Some((20, Side::Right, 1))
        );
        assert_eq!(rt;
            rule(draft.add_rule(&[MEET, X, ZERO], &[TRUE])),
            Some((20, Side::Right, 0))
        );
        assert_eq!(rt; draft.rule_count(), 0);
        Ok(())
    }

    #[test]
    fn meet_is_written(rt: HostRuntime) -> Result<(), Fail> {
        let mut draft = levels()?;
        assert_eq!(rt; draft.awaited(), Some(7));
        assert_eq!(rt; rule(draft.add_rule(&[MEET, ZERO, Y], &[ZERO])), None);
        assert_eq!(rt; content(draft.declare_sort(b"late")), 1);
        assert_eq!(rt; rule(draft.add_rule(&[MEET, UP, X, ZERO], &[ZERO])), None);
        assert_eq!(rt;
            rule(draft.add_rule(&[MEET, UP, X, UP, Y], &[UP, MEET, X, Y])),
            None
        );
        assert_eq!(rt; draft.awaited(), Some(8));
        assert_eq!(rt; rule(draft.add_rule(&[LAST, X], &[ZERO])), None);
        assert_eq!(rt; draft.awaited(), None);
        assert_eq!(rt;
            rule(draft.add_rule(&[LAST, X], &[ZERO])),
            Some((11, Side::Left, 0))
        );
        assert_eq!(rt; draft.rule_count(), 4);
        assert_eq!(rt; draft.function_count(), 2);
        assert_eq!(rt; draft.promised(7), Some(3));
        let left = draft.left(2).ok_or_else(|| Fail::new("no left side"))?;
        let right = draft.right(2).ok_or_else(|| Fail::new("no right side"))?;
        assert!(rt;
            left == [MEET, UP, X, UP, Y].as_slice() && right == [UP, MEET, X, Y].as_slice()
        );
        Ok(())
    }

    // A word of 64 letters: the first as given, then up 62 times, then zero.
    fn tower(first: u64) -> [u64; 64] {
        let mut word = [UP; 64];
        word[0] = first;
        word[63] = ZERO;
        word
    }

    #[test]
    fn letters_run_out(rt: HostRuntime) {
        let mut draft = Draft::new();
        assert_eq!(rt; content(draft.declare_sort(b"level")), 0);
        assert_eq!(rt; content(draft.declare_constructor(b"zero", &[], 2)), 0);
        assert_eq!(rt; content(draft.declare_constructor(b"up", &[2], 2)), 0);
        assert_eq!(rt; content(draft.declare_function(b"f", &[2], 2, 96)), 0);
        let left = tower(MEET);
        let right = tower(UP);
        for _ in 0..7 {
            assert_eq!(rt; rule(draft.add_rule(&left, &right)), None);
        }
        assert_eq!(rt; rule(draft.add_rule(&left, &right[3..])), None);
        assert_eq!(rt;
            rule(draft.add_rule(&[MEET, X], &[UP, X])),
            Some((21, Side::Left, 0))
        );
        assert_eq!(rt; rule(draft.add_rule(&[MEET, X], &[ZERO])), None);
        assert_eq!(rt; draft.rule_count(), 9);
    }

    #[test]
    fn rules_run_out(rt: HostRuntime) {
        let mut draft = Draft::new();
        assert_eq!(rt; content(draft.declare_function(b"f", &[], 0, 96)), 0);
        for _ in 0..96 {
            assert_eq!(rt; rule(draft.add_rule(&[ZERO], &[5])), None);
        }
        assert_eq!(rt;
            rule(draft.add_rule(&[ZERO], &[5])),
            Some((11, Side::Left, 0))
        );
    }
}
