// Lists of names are their text (RFC 4251 section 5), and lists of byte strings keep their order.
use bytes::Bytes;
use ssh_wire::{Blobs, NameList, Text, WireError};
use std::alloc::Global;
use std::test::*;

fn are_names(names: &[Text], wanted: &[&str]) -> bool {
    for (name, text) in names.iter().zip(wanted) {
        if name.as_str() != *text {
            return false;
        }
    }
    names.len() == wanted.len()
}

// Whether the list has these names, and they are joined to this text.
fn is_list(names: &NameList, wanted: &[&str], text: &str) -> Result<bool, WireError> {
    Ok(are_names(names.as_slice(), wanted) && names.to_text()?.as_str() == text)
}

fn is_cut(alloc: Global, text: &str, wanted: &[&str]) -> Result<bool, WireError> {
    is_list(&NameList::parse(alloc, text)?, wanted, text)
}

fn push(alloc: Global, names: &mut NameList, more: &[&str]) -> Result<(), WireError> {
    for name in more {
        names.push(Text::new(alloc, name)?)?;
    }
    Ok(())
}

static TEXTS: [(&str, &[&str]); 5] = [
    ("", &[]),
    (",", &["", ""]),
    ("none", &["none"]),
    ("a,,b", &["a", "", "b"]),
    ("password,publickey", &["password", "publickey"]),
];

// Whether names that are pushed, one behind the other, are joined to this text.
fn is_joined(alloc: Global, text: &str, names: &[&str]) -> Result<bool, WireError> {
    let mut pushed = NameList::new(alloc);
    let done = push(alloc, &mut pushed, names);
    let is_list = is_list(&pushed, names, text);
    drop(pushed);
    done.and(is_list)
}

#[test]
fn a_text_is_cut_at_its_commas_and_joined_again(rt: HostRuntime) {
    for (text, names) in &TEXTS {
        assert!(rt; is_cut(rt.alloc(), *text, *names) == Ok(true), "{text}");
        assert!(rt; is_joined(rt.alloc(), *text, *names) == Ok(true), "{text}");
    }
}

// Whether two names that are pushed behind the first stand there, and what they are joined to.
fn stand_last(alloc: Global) -> Result<bool, WireError> {
    let mut names = NameList::parse(alloc, "a")?;
    let done = push(alloc, &mut names, &["b,c", ""]);
    let is_list = is_list(&names, &["a", "b,c", ""], "a,b,c,");
    drop(names);
    done.and(is_list)
}

#[test]
fn a_pushed_name_stands_last_and_may_hold_a_comma(rt: HostRuntime) {
    assert!(rt; stand_last(rt.alloc()) == Ok(true));
}

fn are_kept(blobs: &[Bytes]) -> bool {
    matches!(blobs, [one, none, other]
        if one.as_slice() == b"one".as_slice() && none.is_empty() && other.as_slice() == b"\xff".as_slice())
}

fn push_three(alloc: Global, blobs: &mut Blobs) -> Result<(), WireError> {
    blobs.push(Bytes::copy_from_slice(alloc, b"one")?)?;
    blobs.push(Bytes::copy_from_slice(alloc, b"")?)?;
    blobs.push(Bytes::copy_from_slice(alloc, b"\xff")?)
}

fn is_copied(blobs: &Blobs) -> Result<bool, WireError> {
    Ok(are_kept(blobs.copy()?.as_slice()))
}

#[test]
fn byte_strings_are_kept_and_copied_in_order(rt: HostRuntime) {
    let mut blobs = Blobs::new(rt.alloc());
    assert!(rt; push_three(rt.alloc(), &mut blobs) == Ok(()));
    assert!(rt; are_kept(blobs.as_slice()));
    assert!(rt; is_copied(&blobs) == Ok(true));
}
