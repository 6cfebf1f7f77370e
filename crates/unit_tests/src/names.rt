//! Keys, which no request asks for yet, and the longest register, which no line holds.
use desk_words::{
    Caller, HolderKind, KeyRow, KeyRows, ListFault, Party, Register, RegisterRow, SecretKey, Text,
    read_key, read_party,
};
use std::alloc::Global;
use std::test::Fail;

fn party(name: &[u8]) -> Result<Party, Fail> {
    Ok(read_party(name).ok_or("a party")?)
}

fn key(word: &str) -> Result<SecretKey, Fail> {
    Ok(read_key(word.as_bytes()).ok_or("a key")?)
}

const KEYS: &[&str] = &[
    "aaaaaaaaaaaaaaaa",
    "0123456789-abcdefghij-ABCDEFGHIJ-KLMNOPQRST-uvwxyz-UVWXYZ-012345",
];

const NO_KEYS: &[&str] = &[
    "aaaaaaaaaaaaaaa",
    "aaaaaaaa_aaaaaaa",
    "aaaaaaaa aaaaaaa",
    "0123456789-abcdefghij-ABCDEFGHIJ-KLMNOPQRST-uvwxyz-UVWXYZ-0123456",
];

#[test]
fn keys_have_the_form(rt: HostRuntime) {
    for &word in KEYS {
        let key = read_key(word.as_bytes());
        assert!(rt; key.is_some_and(|key| key.as_str() == word), "{word}");
    }
    for &word in NO_KEYS {
        assert!(rt; read_key(word.as_bytes()).is_none(), "{word}");
    }
}

/// The key of the office, and two of a member.
fn rows_of_keys() -> Result<[KeyRow; 3], Fail> {
    let member = Caller::Party(party(b"M1")?);
    let [first, second] = [key("aaaaaaaaaaaaaaaa")?, key("zzzzzzzzzzzzzzzz")?];
    Ok([(Caller::Office, second), (member, first), (member, second)].map(|(caller, secret)| KeyRow {
        caller,
        secret,
    }))
}

/// The list that two rows make.
fn list_of(alloc: Global, one: KeyRow, other: KeyRow) -> Result<Result<KeyRows, ListFault>, Fail> {
    Ok(KeyRows::new(vec![in alloc; one, other]?))
}

#[test]
fn keys_are_of_one_caller_each(rt: HostRuntime) -> Result<(), Fail> {
    let [office, member, again] = rows_of_keys()?;
    let keys = list_of(rt.alloc(), member, office)?;
    assert!(rt; keys.is_ok_and(|keys| keys.as_slice() == [office, member].as_slice()));
    assert!(rt; list_of(rt.alloc(), again, office)?.err() == Some(ListFault::Limit));
    assert!(rt; list_of(rt.alloc(), again, member)?.err() == Some(ListFault::Limit));
    Ok(())
}

#[test]
fn a_key_list_may_be_empty(rt: HostRuntime) {
    let none = KeyRows::new(Vec::new(rt.alloc()));
    assert!(rt; none.is_ok_and(|none| none.as_slice().is_empty()));
}

/// The member of a number, who holds one share.
fn row_of(alloc: Global, number: u32) -> Result<RegisterRow, Fail> {
    let member = party(format!(in alloc; "M{number}")?.as_bytes())?;
    Ok(RegisterRow {
        member,
        kind: HolderKind::Individual,
        name: Text::new(alloc, b"Ada").ok().ok_or("a text")?,
        shares: 1,
        paid: 0,
    })
}

/// So many rows of one share each, the last of them first.
fn rows_of_one_share(alloc: Global, count: u32) -> Result<Vec<RegisterRow>, Fail> {
    let mut rows = Vec::new(alloc);
    for number in (0..count).rev() {
        rows.push(row_of(alloc, number)?)?;
    }
    Ok(rows)
}

#[test]
fn a_register_has_20_000_rows_at_most(rt: HostRuntime) -> Result<(), Fail> {
    let register = Register::new(rows_of_one_share(rt.alloc(), 20_000)?);
    assert!(rt; register.is_ok_and(|register| register.rows().len() == 20_000));
    let fault = Register::new(rows_of_one_share(rt.alloc(), 20_001)?).err();
    assert!(rt; fault == Some(ListFault::Limit));
    Ok(())
}
