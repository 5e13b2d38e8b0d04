// Tests of Check: which drafts are books, which function is named, and what the place then holds.
#![tactic(auto)]

#[cfg(test)]
mod tests {
    use books::book::Book;
    use drafts::draft::Draft;
    use std::test::Fail;
    use terms::letter::{FALSE, SYMBOLS, TRUE, VARIABLES};
    use trees::node::Kind;

    // The letters of what these tests declare, and of their variables; the program and other tests name their own.
    const ZERO: u64 = SYMBOLS + 5;

    const UP: u64 = SYMBOLS + 6;

    // The first function after the sort level, and the next.
    const FIRST: u64 = SYMBOLS + 7;

    const SECOND: u64 = SYMBOLS + 8;

    const X: u64 = VARIABLES;

    const Y: u64 = VARIABLES + 1;

    // The sorts that are built in, and those that these tests declare.
    const NUMBER: u64 = 0;

    const TRUTH: u64 = 1;

    const LEVEL: u64 = 2;

    const VOID: u64 = 3;

    // What a call on a draft answers; a refusal fails the test.
    fn held<T: Drop, E: Drop>(answer: Result<T, E>) -> Result<T, Fail> {
        answer.map_err(|_| Fail::new("a call on a draft is refused"))
    }

    // The sort level with zero and up, and the sort void without constructors.
    // The program and other tests have such levels too: each makes its own, by the calls that it shows.
    fn levels() -> Result<Draft, Fail> {
        let mut draft = Draft::new();
        held(draft.declare_sort(b"level"))?;
        held(draft.declare_constructor(b"zero", &[], LEVEL))?;
        held(draft.declare_constructor(b"up", &[LEVEL], LEVEL))?;
        held(draft.declare_sort(b"void"))?;
        Ok(draft)
    }

    // One function over levels, with these argument sorts and rules.
    fn defined(args: &[u64], rules: &[(&[u64], &[u64])]) -> Result<Draft, Fail> {
        let mut draft = levels()?;
        // The cast loses nothing: a length has at most 64 bits.
        held(draft.declare_function(b"first", args, LEVEL, rules.len() as u64))?;
        for (left, right) in rules {
            held(draft.add_rule(left, right))?;
        }
        Ok(draft)
    }

    // The number of a refusal and the function that it names; none where the draft is accepted.
    fn refusal(draft: &Draft) -> Option<(u8, u8)> {
        let mut place = Book::empty();
        place.check(draft).err().map(|fault| fault.numbered())
    }

    #[test]
    fn empty_drafts_are_books(rt: HostRuntime) -> Result<(), Fail> {
        assert_eq!(rt; refusal(&Draft::new()), None);
        assert_eq!(rt; refusal(&levels()?), None);
        Ok(())
    }

    #[test]
    fn constants_have_one_rule(rt: HostRuntime) -> Result<(), Fail> {
        assert_eq!(rt; refusal(&defined(&[], &[(&[FIRST], &[ZERO])])?), None);
        let twice = defined(&[], &[(&[FIRST], &[ZERO]), (&[FIRST], &[ZERO])])?;
        assert_eq!(rt; refusal(&twice), Some((23, 7)));
        Ok(())
    }

    #[test]
    fn numbers_are_never_branched_at(rt: HostRuntime) -> Result<(), Fail> {
        assert_eq!(rt;
            refusal(&defined(&[NUMBER], &[(&[FIRST, X], &[ZERO])])?),
            None
        );
        let twice = defined(&[NUMBER], &[(&[FIRST, X], &[ZERO]), (&[FIRST, Y], &[ZERO])])?;
        assert_eq!(rt; refusal(&twice), Some((23, 7)));
        let beside = defined(
            &[NUMBER, LEVEL],
            &[(&[FIRST, X, ZERO], &[ZERO]), (&[FIRST, X, UP, Y], &[Y])],
        )?;
        assert_eq!(rt; refusal(&beside), None);
        Ok(())
    }

    #[test]
    fn sorts_without_constructors_are_never_branched_at(rt: HostRuntime) -> Result<(), Fail> {
        assert_eq!(rt;
            refusal(&defined(&[VOID], &[(&[FIRST, X], &[ZERO])])?),
            None
        );
        let beside = defined(&[VOID, LEVEL], &[(&[FIRST, X, ZERO], &[ZERO])])?;
        assert_eq!(rt; refusal(&beside), Some((24, 7)));
        Ok(())
    }

    #[test]
    fn patterns_nest(rt: HostRuntime) -> Result<(), Fail> {
        let whole = defined(
            &[LEVEL],
            &[
                (&[FIRST, ZERO], &[ZERO]),
                (&[FIRST, UP, ZERO], &[ZERO]),
                (&[FIRST, UP, UP, X], &[X]),
            ],
        )?;
        assert_eq!(rt; refusal(&whole), None);
        let half = defined(
            &[LEVEL],
            &[(&[FIRST, ZERO], &[ZERO]), (&[FIRST, UP, UP, X], &[X])],
        )?;
        assert_eq!(rt; refusal(&half), Some((24, 7)));
        let overlapping = defined(
            &[LEVEL],
            &[(&[FIRST, UP, X], &[ZERO]), (&[FIRST, UP, UP, X], &[X])],
        )?;
        assert_eq!(rt; refusal(&overlapping), Some((23, 7)));
        Ok(())
    }

    #[test]
    fn any_position_may_be_branched_at_first(rt: HostRuntime) -> Result<(), Fail> {
        let mut draft = levels()?;
        held(draft.declare_function(b"pick", &[TRUTH, TRUTH], TRUTH, 3))?;
        held(draft.add_rule(&[FIRST, X, TRUE], &[X]))?;
        held(draft.add_rule(&[FIRST, TRUE, FALSE], &[FALSE]))?;
        held(draft.add_rule(&[FIRST, FALSE, FALSE], &[TRUE]))?;
        assert_eq!(rt; refusal(&draft), None);
        Ok(())
    }

    // A left and a right side.
    type Sides = (&'static [u64], &'static [u64]);

    const FIRST_ZERO: Sides = (&[FIRST, ZERO], &[ZERO]);

    const FIRST_UP: Sides = (&[FIRST, UP, X], &[X]);

    const FIRST_ANY: Sides = (&[FIRST, X], &[X]);

    const SECOND_UP: Sides = (&[SECOND, UP, X], &[X]);

    const SECOND_ANY: Sides = (&[SECOND, X], &[X]);

    // The same but for the name of its variable.
    const SECOND_OTHER: Sides = (&[SECOND, Y], &[Y]);

    // Two functions of a level that promise so many rules, and the first rules of them.
    fn two(promised: [u64; 2], rules: &[Sides]) -> Result<Draft, Fail> {
        let [first, second] = promised;
        let mut draft = levels()?;
        held(draft.declare_function(b"first", &[LEVEL], LEVEL, first))?;
        held(draft.declare_function(b"second", &[LEVEL], LEVEL, second))?;
        for (left, right) in rules {
            held(draft.add_rule(left, right))?;
        }
        Ok(draft)
    }

    #[test]
    fn missing_rules_come_first(rt: HostRuntime) -> Result<(), Fail> {
        assert_eq!(rt; refusal(&two([1, 1], &[])?), Some((22, 7)));
        assert_eq!(rt; refusal(&two([2, 1], &[FIRST_ZERO])?), Some((22, 7)));
        // The first function is incomplete, and then it has no tree.
        assert_eq!(rt; refusal(&two([1, 1], &[FIRST_ZERO])?), Some((22, 8)));
        let twice = two([2, 1], &[FIRST_ANY, FIRST_ANY])?;
        assert_eq!(rt; refusal(&twice), Some((22, 8)));
        Ok(())
    }

    #[test]
    fn a_function_behind_a_sound_one_is_named(rt: HostRuntime) -> Result<(), Fail> {
        let incomplete = two([2, 1], &[FIRST_ZERO, FIRST_UP, SECOND_UP])?;
        assert_eq!(rt; refusal(&incomplete), Some((24, 8)));
        let twice = two([1, 2], &[FIRST_ANY, SECOND_ANY, SECOND_ANY])?;
        assert_eq!(rt; refusal(&twice), Some((23, 8)));
        let sound = two([2, 1], &[FIRST_ZERO, FIRST_UP, SECOND_ANY])?;
        assert_eq!(rt; refusal(&sound), None);
        Ok(())
    }

    #[test]
    fn the_first_function_at_fault_is_named(rt: HostRuntime) -> Result<(), Fail> {
        let both = two([1, 1], &[FIRST_ZERO, SECOND_UP])?;
        assert_eq!(rt; refusal(&both), Some((24, 7)));
        // 24 before 23, and 23 before 24: the function decides, not the number.
        let before = two([1, 2], &[FIRST_ZERO, SECOND_ANY, SECOND_ANY])?;
        assert_eq!(rt; refusal(&before), Some((24, 7)));
        let behind = two([2, 1], &[FIRST_ANY, FIRST_ANY, SECOND_UP])?;
        assert_eq!(rt; refusal(&behind), Some((23, 7)));
        let twice = two([2, 2], &[FIRST_ANY, FIRST_ANY, SECOND_ANY, SECOND_ANY])?;
        assert_eq!(rt; refusal(&twice), Some((23, 7)));
        let alone = two([2, 1], &[FIRST_ANY, FIRST_ANY, SECOND_ANY])?;
        assert_eq!(rt; refusal(&alone), Some((23, 7)));
        Ok(())
    }

    #[test]
    fn an_incomplete_function_is_named_before_one_without_a_tree(
        rt: HostRuntime,
    ) -> Result<(), Fail> {
        let draft = two([1, 2], &[FIRST_ZERO, SECOND_ANY, SECOND_OTHER])?;
        assert_eq!(rt; refusal(&draft), Some((24, 7)));
        Ok(())
    }

    #[test]
    fn the_longest_left_sides_may_nest(rt: HostRuntime) -> Result<(), Fail> {
        let mut left = [UP; 64];
        left[0] = FIRST;
        left[63] = X;
        assert_eq!(rt;
            refusal(&defined(&[LEVEL], &[(&left, &[X])])?),
            Some((24, 7))
        );
        let twice = defined(&[LEVEL], &[(&left, &[X]), (&left, &[X])])?;
        assert_eq!(rt; refusal(&twice), Some((23, 7)));
        Ok(())
    }

    // The node of the first function's tree to which these constructors lead from its root. Zero is symbol 5, up 6, the first function 7.
    fn node_at(book: &Book, symbols: &[u8]) -> Option<Kind> {
        let mut place = book.rules.root(7)?;
        for symbol in symbols {
            place = book.rules.child(place, *symbol)?;
        }
        Some(book.rules.node(place)?.kind)
    }

    // Whether they lead to this rule.
    fn applies(book: &Book, symbols: &[u8], rule: usize) -> bool {
        node_at(book, symbols) == Some(Kind::Rule(rule))
    }

    // Whether they lead to a branch at this position.
    fn branches(book: &Book, symbols: &[u8], path: &[u8]) -> bool {
        matches!(node_at(book, symbols), Some(Kind::Branch(at, _)) if at.steps() == path)
    }

    // Rules of a function of two levels, each with a constructor at both.
    const BOTH: [(&[u64], &[u64]); 4] = [
        (&[FIRST, UP, X, UP, Y], &[FIRST, Y, X]),
        (&[FIRST, ZERO, ZERO], &[ZERO]),
        (&[FIRST, UP, X, ZERO], &[X]),
        (&[FIRST, ZERO, UP, X], &[UP, X]),
    ];

    #[test]
    fn the_first_common_position_is_branched_at(rt: HostRuntime) -> Result<(), Fail> {
        let mut book = Book::empty();
        assert!(rt; book.check(&defined(&[LEVEL, LEVEL], &BOTH)?).is_ok());
        assert!(rt; branches(&book, &[], &[1]));
        assert!(rt; branches(&book, &[5], &[2]) && branches(&book, &[6], &[2]));
        assert!(rt; applies(&book, &[5, 5], 1) && applies(&book, &[5, 6], 3));
        assert!(rt; applies(&book, &[6, 5], 2) && applies(&book, &[6, 6], 0));
        assert!(rt; node_at(&book, &[3]).is_none());
        assert!(rt; node_at(&book, &[5, 5, 5]).is_none());
        Ok(())
    }

    #[test]
    fn a_book_has_the_rules_of_its_draft(rt: HostRuntime) -> Result<(), Fail> {
        let mut book = Book::empty();
        assert!(rt; book.check(&defined(&[LEVEL, LEVEL], &BOTH)?).is_ok());
        for (rule, (left, right)) in BOTH.iter().enumerate() {
            assert_eq!(rt; book.rules.left(rule), Some(*left));
            assert_eq!(rt; book.rules.right(rule), Some(*right));
        }
        assert_eq!(rt; book.rules.rule_count(), 4);
        assert_eq!(rt; book.rules.left(4), None);
        Ok(())
    }

    // A node's symbol, rule or first child, and next child.
    type Shape = (u8, Result<usize, Option<usize>>, Option<usize>);

    fn shape(book: &Book, place: usize) -> Option<Shape> {
        let node = book.rules.node(place)?;
        let kind = match node.kind {
            Kind::Rule(rule) => Ok(rule),
            Kind::Branch(_, first) => Err(first),
        };
        Some((node.symbol, kind, node.next))
    }

    #[test]
    fn nodes_lie_from_the_last_child_to_the_root(rt: HostRuntime) -> Result<(), Fail> {
        let rules: [Sides; 3] = [
            (&[FIRST, ZERO, Y], &[ZERO]),
            (&[FIRST, UP, X, ZERO], &[ZERO]),
            (&[FIRST, UP, X, UP, Y], &[UP, FIRST, X, Y]),
        ];
        let nodes = [
            (6, Ok(2), None),
            (5, Ok(1), Some(0)),
            (6, Err(Some(1)), None),
            (5, Ok(0), Some(2)),
            (7, Err(Some(3)), None),
        ];
        let mut book = Book::empty();
        assert!(rt; book.check(&defined(&[LEVEL, LEVEL], &rules)?).is_ok());
        assert_eq!(rt; book.rules.root(7), Some(4));
        for (place, node) in nodes.iter().enumerate() {
            assert_eq!(rt; shape(&book, place), Some(*node));
        }
        assert_eq!(rt; shape(&book, 5), None);
        Ok(())
    }

    // Whether the place holds the book of the first function with its rules for zero and up.
    fn is_step(place: &Book) -> bool {
        place.rules.rule_count() == 2
            && branches(place, &[], &[1])
            && applies(place, &[5], 0)
            && applies(place, &[6], 1)
            && node_at(place, &[3]).is_none()
            && place.rules.root(8).is_none()
    }

    #[test]
    fn a_place_keeps_its_book_where_a_draft_is_refused(rt: HostRuntime) -> Result<(), Fail> {
        let mut place = Book::empty();
        assert!(rt;
            place
                .check(&defined(&[LEVEL], &[FIRST_ZERO, FIRST_UP])?)
                .is_ok()
        );
        assert!(rt; is_step(&place));
        let refused = [
            (22, two([1, 1], &[FIRST_ANY])?),
            (23, two([1, 2], &[FIRST_ANY, SECOND_ANY, SECOND_ANY])?),
            (24, two([1, 1], &[FIRST_ANY, SECOND_UP])?),
        ];
        for (number, draft) in refused.iter() {
            let fault = place.check(draft).err().map(|fault| fault.numbered());
            assert_eq!(rt; fault, Some((*number, 8)));
            assert!(rt; is_step(&place));
        }
        assert!(rt; place.check(&defined(&[LEVEL], &[FIRST_ZERO])?).is_err());
        assert!(rt; is_step(&place));
        assert!(rt; place.check(&Draft::new()).is_ok());
        assert_eq!(rt; place.rules.rule_count(), 0);
        assert!(rt; place.rules.root(7).is_none());
        Ok(())
    }

    #[test]
    fn a_used_place_takes_a_book_whole(rt: HostRuntime) -> Result<(), Fail> {
        let mut place = Book::empty();
        assert!(rt;
            place
                .check(&defined(&[LEVEL], &[FIRST_ZERO, FIRST_UP])?)
                .is_ok()
        );
        let other = two([2, 1], &[FIRST_UP, FIRST_ZERO, SECOND_ANY])?;
        assert!(rt; place.check(&other).is_ok());
        assert_eq!(rt; place.rules.rule_count(), 3);
        assert!(rt; applies(&place, &[6], 0) && applies(&place, &[5], 1));
        let root = place.rules.root(8).and_then(|root| place.rules.node(root));
        assert!(rt; root.is_some_and(|node| node.kind == Kind::Rule(2) && node.symbol == 8));
        let signature = place.declared().signature;
        let second = signature.symbol_name(8);
        assert!(rt; second.is_some_and(|name| name.as_bytes() == b"second".as_slice()));
        let void = signature.sort_name(3);
        assert!(rt; void.is_some_and(|name| name.as_bytes() == b"void".as_slice()));
        assert!(rt; place.check(&Draft::new()).is_ok());
        assert_eq!(rt; place.rules.rule_count(), 0);
        assert!(rt; place.rules.root(7).is_none() && place.rules.root(8).is_none());
        assert_eq!(rt; place.declared().signature.symbol_count(), 5);
        Ok(())
    }
}
