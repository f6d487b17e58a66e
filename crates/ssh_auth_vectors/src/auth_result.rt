// How a request of authentication ended (RFC 4252 section 5.1).
use ssh_auth::AuthResult;
use ssh_wire::{MethodKind, MethodSet};
use std::test::*;

#[test]
fn only_success_is_success(rt: HostRuntime) {
    let password = MethodSet::from_slice(&[MethodKind::Password]);
    let rows = [
        ("the user is authenticated", AuthResult::Success, true),
        (
            "nothing is left to go on with",
            AuthResult::Failure {
                remaining_methods: MethodSet::empty(),
                partial_success: false,
            },
            false,
        ),
        (
            "a method can continue",
            AuthResult::Failure {
                remaining_methods: password,
                partial_success: false,
            },
            false,
        ),
        (
            "a partial success is no success",
            AuthResult::Failure {
                remaining_methods: password,
                partial_success: true,
            },
            false,
        ),
    ];
    for (shows, ended, success) in rows {
        assert!(rt; ended.success() == success, "{shows}");
    }
}

#[test]
fn failures_are_equal_where_their_fields_are(rt: HostRuntime) {
    let password = MethodSet::from_slice(&[MethodKind::Password]);
    let failure = AuthResult::Failure {
        remaining_methods: password,
        partial_success: false,
    };
    let rows = [
        ("the same", failure, true),
        ("a success", AuthResult::Success, false),
        (
            "other methods",
            AuthResult::Failure {
                remaining_methods: MethodSet::empty(),
                partial_success: false,
            },
            false,
        ),
        (
            "another flag",
            AuthResult::Failure {
                remaining_methods: password,
                partial_success: true,
            },
            false,
        ),
    ];
    for (shows, other, is_equal) in rows {
        assert!(rt; (failure == other) == is_equal, "{shows}");
    }
}
