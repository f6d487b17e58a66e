// Methods of authentication: their names (RFC 4252 sections 5.2, 7, 8 and 9, RFC 4256, RFC 4462
// section 3), and sets of them, which keep each method once, where it was pushed last.
use ssh_wire::{MethodKind, MethodSet, NameList, WireError, method_from_own_name};
use std::alloc::Global;
use std::test::*;

const NONE: MethodKind = MethodKind::None;

const PASSWORD: MethodKind = MethodKind::Password;

const PUBLIC_KEY: MethodKind = MethodKind::PublicKey;

const HOST_BASED: MethodKind = MethodKind::HostBased;

const INTERACTIVE: MethodKind = MethodKind::KeyboardInteractive;

const GSSAPI: MethodKind = MethodKind::GssapiWithMic;

// Names, and the method of each.
static NAMES: [(&str, Option<MethodKind>); 10] = [
    ("none", Some(NONE)),
    ("password", Some(PASSWORD)),
    ("publickey", Some(PUBLIC_KEY)),
    ("hostbased", Some(HOST_BASED)),
    ("keyboard-interactive", Some(INTERACTIVE)),
    ("gssapi-with-mic", Some(GSSAPI)),
    ("", None),
    ("Password", None),
    ("password ", None),
    ("none,password", None),
];

fn read(name: &str) -> Result<MethodKind, ()> {
    name.parse()
}

fn is_named(method: MethodKind, name: &str) -> bool {
    let own: &'static str = (&method).into();
    let names = (method.name(), own);
    names == (name, name) && read(name) == Ok(method) && method_from_own_name(method) == Ok(method)
}

// Whether it is the name of this method, or of none.
fn is_name_of(name: &str, method: Option<MethodKind>) -> bool {
    match method {
        Some(method) => is_named(method, name),
        None => read(name) == Err(()),
    }
}

#[test]
fn a_method_is_read_by_its_own_name_alone(rt: HostRuntime) {
    for (name, method) in &NAMES {
        assert!(rt; is_name_of(*name, *method), "{name}");
    }
}

// A list of names, the methods that it names, and their own list.
static SETS: [(&str, &[MethodKind], &str); 5] = [
    ("", &[], ""),
    (
        "password,publickey",
        &[PASSWORD, PUBLIC_KEY],
        "password,publickey",
    ),
    (
        "publickey,none,publickey",
        &[NONE, PUBLIC_KEY],
        "none,publickey",
    ),
    ("hostbased,unknown,Password", &[HOST_BASED], "hostbased"),
    (
        "gssapi-with-mic,keyboard-interactive",
        &[GSSAPI, INTERACTIVE],
        "gssapi-with-mic,keyboard-interactive",
    ),
];

// Whether the list names these methods, and they have this list.
fn is_set(
    alloc: Global,
    names: &str,
    wanted: &[MethodKind],
    listed: &str,
) -> Result<bool, WireError> {
    let methods = MethodSet::from_names(&NameList::parse(alloc, names)?);
    let is_listed = methods.to_names(alloc)?.to_text()?.as_str() == listed;
    Ok(is_listed && methods.as_slice() == wanted && MethodSet::from_slice(wanted) == methods)
}

#[test]
fn a_set_of_names_has_each_method_at_its_last_place(rt: HostRuntime) {
    for (names, wanted, listed) in &SETS {
        assert!(rt;
            is_set(rt.alloc(), *names, *wanted, *listed) == Ok(true),
            "{names}"
        );
    }
}

// What is done with a set.
#[derive(Clone, Copy)]
enum Change {
    Push(MethodKind),
    Remove(MethodKind),
}

// What is done, beginning with all methods of a server and none, and the methods that are then in
// the set, in order.
static CHANGES: [(Change, &[MethodKind]); 4] = [
    (
        Change::Push(NONE),
        &[PASSWORD, PUBLIC_KEY, HOST_BASED, INTERACTIVE, NONE],
    ),
    (
        Change::Push(GSSAPI),
        &[PASSWORD, PUBLIC_KEY, HOST_BASED, INTERACTIVE, NONE, GSSAPI],
    ),
    (
        Change::Remove(PASSWORD),
        &[PUBLIC_KEY, HOST_BASED, INTERACTIVE, NONE, GSSAPI],
    ),
    (
        Change::Remove(PASSWORD),
        &[PUBLIC_KEY, HOST_BASED, INTERACTIVE, NONE, GSSAPI],
    ),
];

static ALL: [MethodKind; 6] = [NONE, PASSWORD, PUBLIC_KEY, HOST_BASED, INTERACTIVE, GSSAPI];

// All methods of a client, which are those of a server once the last is taken out.
fn of_client_and_server() -> (bool, MethodSet) {
    let mut methods = MethodSet::client_supported();
    let are_all = methods == MethodSet::from_slice(&ALL);
    methods.remove(GSSAPI);
    (are_all && methods == MethodSet::server_supported(), methods)
}

fn make(methods: &mut MethodSet, change: Change) {
    match change {
        Change::Push(method) => methods.push(method),
        Change::Remove(method) => methods.remove(method),
    }
}

#[test]
fn a_method_is_moved_to_the_end_or_taken_out(rt: HostRuntime) {
    let (are_supported, mut methods) = of_client_and_server();
    assert!(rt; are_supported);
    for (done, wanted) in &CHANGES {
        make(&mut methods, *done);
        assert!(rt; methods.as_slice() == *wanted);
    }
}

#[test]
fn sets_of_other_methods_or_in_another_order_differ(rt: HostRuntime) {
    let mut one = MethodSet::empty();
    one.push(PASSWORD);
    assert!(rt; one != MethodSet::from_slice(&[PUBLIC_KEY]));
    assert!(rt;
        MethodSet::from_slice(&[NONE, PASSWORD]) != MethodSet::from_slice(&[PASSWORD, NONE])
    );
}
