// Letters, names, terms and signatures.
#![tactic(auto)]

pub mod letter;
pub mod name;
pub mod row;
pub mod signature;

#[cfg(test)]
mod tests {
    use crate::letter::{Letter, SYMBOLS, VARIABLES};
    use crate::name::Name;
    use crate::signature::Signature;
    use std::test::Fail;

    #[test]
    fn letters_end_where_they_should(rt: HostRuntime) {
        assert_eq!(rt;
            Letter::try_from(SYMBOLS - 1).ok(),
            Some(Letter::Cell(0xFFFF_FFFF))
        );
        assert_eq!(rt;
            Letter::try_from(SYMBOLS + 95).ok(),
            Some(Letter::Symbol(95))
        );
        assert_eq!(rt; Letter::try_from(SYMBOLS + 96).ok(), None);
        assert_eq!(rt; Letter::try_from(VARIABLES - 1).ok(), None);
        assert_eq!(rt;
            Letter::try_from(VARIABLES + 7).ok(),
            Some(Letter::Variable(7))
        );
        assert_eq!(rt; Letter::try_from(VARIABLES + 8).ok(), None);
    }

    #[test]
    fn names_have_a_form(rt: HostRuntime) {
        assert!(rt; Name::new(b"abcdefghijkl").is_some() && Name::new(b"abcdefghijklm").is_none());
        assert!(rt; Name::new(b"").is_none() && Name::new(b"1a").is_none());
        assert!(rt; Name::new(b"a1").is_some() && Name::new(b"aB").is_none());
    }

    #[test]
    fn symbols_are_found_by_name(rt: HostRuntime) -> Result<(), Fail> {
        let mut signature = Signature::built_in();
        let name = Name::new(b"up").ok_or_else(|| Fail::new("no name"))?;
        assert_eq!(rt; signature.add_constructor(name, &[1, 1, 1, 1, 1], 1), None);
        assert_eq!(rt; signature.add_constructor(name, &[1, 1, 1, 1], 1), Some(5));
        assert_eq!(rt; signature.symbol_named(b"up"), Some(5));
        assert_eq!(rt; signature.symbol_named(b"down"), None);
        assert_eq!(rt; signature.sort_named(b"truth"), Some(1));
        assert_eq!(rt; signature.arity(SYMBOLS + 5), Some(4));
        assert_eq!(rt; signature.arity(SYMBOLS + 6), None);
        Ok(())
    }
}
