// Words of terms: where their parts end and stand, and the faults of a word that is to be a term.
// Signature and word are two parameters throughout: a word is cut as it is read, and a struct would be made anew at each cut.
#![tactic(auto)]

pub mod checks;
pub mod fault;
pub mod lawful;
pub mod part;
pub mod parts;

#[cfg(test)]
mod tests {
    use crate::checks::is_value;
    use crate::lawful::lawful_word_fault;
    use crate::part::Part;
    use crate::parts::{part, part_end};
    use numbers::PulseCount;
    use std::test::Fail;
    use terms::letter::{PLUS, SYMBOLS, TRUE, VARIABLES};
    use terms::name::Name;
    use terms::signature::Signature;

    // The letters of what these tests declare, and of their variable; the tour and the tests of other crates name their own.
    const ZERO: u64 = SYMBOLS + 5;

    const UP: u64 = SYMBOLS + 6;

    const MEET: u64 = SYMBOLS + 7;

    const X: u64 = VARIABLES;

    // The sort level with zero, up and meet; the tour and the tests of other crates make their own, by the calls that they show.
    fn levels() -> Option<Signature> {
        let mut signature = Signature::built_in();
        let level = signature.add_sort(Name::new(b"level")?)?;
        signature.add_constructor(Name::new(b"zero")?, &[], level)?;
        signature.add_constructor(Name::new(b"up")?, &[level], level)?;
        signature.add_function(Name::new(b"meet")?, &[level, level], level)?;
        Some(signature)
    }

    // The number and index of the first fault of a word of at most four letters.
    fn fault(signature: &Signature, word: &[u64]) -> Option<(u8, usize)> {
        Some(lawful_word_fault(signature, &PulseCount, 4, word)?.numbered())
    }

    #[test]
    fn faults_name_the_first_letter(rt: HostRuntime) -> Result<(), Fail> {
        let s = levels().ok_or_else(|| Fail::new("no signature"))?;
        assert_eq!(rt; fault(&s, &[]), Some((31, 0)));
        assert_eq!(rt; fault(&s, &[UP, UP, UP, UP, ZERO]), Some((31, 0)));
        assert_eq!(rt; fault(&s, &[UP, UP, UP, ZERO]), None);
        assert_eq!(rt; fault(&s, &[MEET, X, ZERO]), Some((32, 1)));
        assert_eq!(rt; fault(&s, &[MEET, X, X]), Some((32, 1)));
        assert_eq!(rt; fault(&s, &[UP, MEET + 1]), Some((32, 1)));
        assert_eq!(rt; fault(&s, &[UP, PLUS + 96]), Some((32, 1)));
        assert_eq!(rt; fault(&s, &[ZERO, X]), Some((32, 1)));
        assert_eq!(rt; fault(&s, &[MEET, ZERO]), Some((33, 2)));
        assert_eq!(rt; fault(&s, &[ZERO, UP, ZERO]), Some((33, 1)));
        assert_eq!(rt; fault(&s, &[MEET, ZERO, TRUE]), Some((34, 2)));
        assert_eq!(rt; fault(&s, &[MEET, TRUE, TRUE]), Some((34, 1)));
        assert_eq!(rt; fault(&s, &[PLUS, 5, 1_000_000]), Some((35, 2)));
        assert_eq!(rt; fault(&s, &[PLUS, 1_000_000, 1_000_000]), Some((35, 1)));
        Ok(())
    }

    #[test]
    fn parts_have_place_and_length(rt: HostRuntime) -> Result<(), Fail> {
        let s = levels().ok_or_else(|| Fail::new("no signature"))?;
        let word = [MEET, UP, ZERO, ZERO];
        // By length: the words that end too early.
        for n in 0..word.len() {
            assert_eq!(rt; part_end(&s, &word[0..n]), None);
        }
        assert_eq!(rt; part_end(&s, &word), Some(4));
        assert_eq!(rt; part(&s, &word, &[1]), Some(Part { start: 1, len: 2 }));
        assert_eq!(rt; part(&s, &word, &[1, 1]), Some(Part { start: 2, len: 1 }));
        assert_eq!(rt; part(&s, &word, &[3]), None);
        assert!(rt; !is_value(&s, &word) && is_value(&s, &word[1..3]));
        Ok(())
    }
}
