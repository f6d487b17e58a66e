// The examples of README.md and of docs/SCRIPT.md, as they stand there.
use ssh_scripted::{Case, Outcome, comes_to};
use std::alloc::Global;
use std::test::*;

static EXAMPLES: [Case; 14] = [
    Case {
        shows: "a request for the service of authentication",
        script: b"recv 050000000c7373682d7573657261757468\n",
        status: 0,
        written: b"call authentication_banner\n\
          input 1\n\
          send - 060000000c7373682d7573657261757468\n\
          input 2\n\
          ok\n",
    },
    Case {
        shows: "a user who is let in",
        script: b"answer none accept\n\
          recv 050000000c7373682d7573657261757468\n\
          recv 3200000005616c6963650000000e7373682d636f6e6e656374696f6e000000046e6f6e65\n",
        status: 0,
        written: b"call authentication_banner\n\
          call auth_none 616c696365\n\
          call auth_succeeded\n\
          input 1\n\
          send - 060000000c7373682d7573657261757468\n\
          input 2\n\
          send - 34\n\
          input 3\n\
          ok\n",
    },
    Case {
        shows: "a channel, and data on it from outside",
        script: b"answer none accept\n\
          recv 050000000c7373682d7573657261757468\n\
          recv 3200000005616c6963650000000e7373682d636f6e6e656374696f6e000000046e6f6e65\n\
          recv 5a0000000773657373696f6e000000070010000000008000\n\
          data 2 68656c6c6f\n",
        status: 0,
        written: b"call authentication_banner\n\
          call auth_none 616c696365\n\
          call auth_succeeded\n\
          call channel_open_session 2\n\
          input 1\n\
          send - 060000000c7373682d7573657261757468\n\
          input 2\n\
          send - 34\n\
          input 3\n\
          notice 2 Ready 1048576 32768\n\
          send 2 5b00000007000000020020000000008000\n\
          input 4\n\
          done 1 accepted\n\
          send 2 5e000000070000000568656c6c6f\n\
          input 5\n\
          ok\n",
    },
    Case {
        shows: "an exchange of keys, with data that are held in it",
        script: b"answer none accept\n\
          answer data echo\n\
          recv 050000000c7373682d7573657261757468\n\
          recv 3200000005616c6963650000000e7373682d636f6e6e656374696f6e000000046e6f6e65\n\
          recv 5a0000000773657373696f6e000000070010000000008000\n\
          tick rekey\n\
          recv 5e000000020000000161\n\
          recv 14\n\
          recv 15\n",
        status: 0,
        written: b"call authentication_banner\n\
          call auth_none 616c696365\n\
          call auth_succeeded\n\
          call channel_open_session 2\n\
          call data 2 61\n\
          input 1\n\
          send - 060000000c7373682d7573657261757468\n\
          input 2\n\
          send - 34\n\
          input 3\n\
          notice 2 Ready 1048576 32768\n\
          send 2 5b00000007000000020020000000008000\n\
          input 4\n\
          send - 14\n\
          input 5\n\
          notice 2 Data 61\n\
          input 6\n\
          input 7\n\
          send - 15\n\
          send 2 5e000000070000000161\n\
          input 8\n\
          ok\n",
    },
    Case {
        shows: "two passwords, of which the script has the second accepted",
        script: b"# Two answers to passwords; a third password has the default.\n\
          answer password reject\n\
          answer password accept\n\
          config reject 250\n\
          \n\
          at 1000\n\
          recv 050000000c7373682d7573657261757468\n\
          recv 3200000005616c6963650000000e7373682d636f6e6e656374696f6e0000000870617373776f7264\
          00000000036f6c64\n\
          at 3000\n\
          recv 3200000005616c6963650000000e7373682d636f6e6e656374696f6e0000000870617373776f7264\
          00000000036e6577\n\
          end\n",
        status: 0,
        written: b"call authentication_banner\n\
          call auth_password 616c696365 6f6c64\n\
          call auth_password 616c696365 6e6577\n\
          call auth_succeeded\n\
          input 1\n\
          send - 060000000c7373682d7573657261757468\n\
          input 2\n\
          send - 330000002d6e6f6e652c7075626c69636b65792c686f737462617365642c6b6579626f6172642d\
          696e74657261637469766500 hold 1250\n\
          input 3\n\
          send - 34\n\
          input 4\n\
          ok\n",
    },
    Case {
        shows: "a request that is signed by a key, over a session id",
        script: b"session 5e55\n\
          sign 0000000b7373682d6564323535313900000020111111111111111111111111111111111111111111\
          1111111111111111111111 ssh-ed25519 000000025e553200000005616c6963650000000e7373682d63\
          6f6e6e656374696f6e000000097075626c69636b6579010000000b7373682d65643235353139000000330\
          000000b7373682d6564323535313900000020111111111111111111111111111111111111111111111111\
          1111111111111111 33333333333333333333333333333333333333333333333333333333333333333333\
          333333333333333333333333333333333333333333333333333333333333\n\
          answer publickey accept\n\
          recv 050000000c7373682d7573657261757468\n\
          recv 3200000005616c6963650000000e7373682d636f6e6e656374696f6e000000097075626c69636b65\
          79010000000b7373682d65643235353139000000330000000b7373682d656432353531390000002011111\
          11111111111111111111111111111111111111111111111111111111111000000530000000b7373682d65\
          6432353531390000004033333333333333333333333333333333333333333333333333333333333333333\
          333333333333333333333333333333333333333333333333333333333333333\n",
        status: 0,
        written: b"call authentication_banner\n\
          call auth_publickey_offered 616c696365 0000000b7373682d656432353531390000002011111111\
          11111111111111111111111111111111111111111111111111111111 ssh-ed25519\n\
          call auth_publickey 616c696365 0000000b7373682d65643235353139000000201111111111111111\
          111111111111111111111111111111111111111111111111 ssh-ed25519\n\
          call auth_succeeded\n\
          input 1\n\
          send - 060000000c7373682d7573657261757468\n\
          input 2\n\
          send - 34\n\
          input 3\n\
          ok\n",
    },
    Case {
        shows: "a banner, and a round of prompts that is answered by two responses",
        script: b"banner 68690a\n\
          answer interactive ask\n\
          answer interactive accept\n\
          recv 050000000c7373682d7573657261757468\n\
          recv 3200000005616c6963650000000e7373682d636f6e6e656374696f6e000000146b6579626f617264\
          2d696e7465726163746976650000000000000000\n\
          recv 3d00000002000000000000000431323334\n",
        status: 0,
        written: b"call authentication_banner\n\
          call auth_keyboard_interactive 616c696365 - none\n\
          call auth_keyboard_interactive 616c696365 - - 31323334\n\
          call auth_succeeded\n\
          input 1\n\
          send - 060000000c7373682d7573657261757468\n\
          send - 350000000368690a00000000\n\
          input 2\n\
          send - 3c0000000000000000000000000000000100000006436f64653a2000\n\
          input 3\n\
          send - 34\n\
          input 4\n\
          ok\n",
    },
    Case {
        shows: "data that wait for a grant, and commands that wait for the data",
        script: b"answer none accept\n\
          recv 050000000c7373682d7573657261757468\n\
          recv 3200000005616c6963650000000e7373682d636f6e6e656374696f6e000000046e6f6e65\n\
          recv 5a0000000773657373696f6e000000070000000300008000\n\
          data 2 68656c6c6f\n\
          eof 2\n\
          accept 2\n\
          data 9 -\n\
          recv 5d0000000200000064\n\
          recv 6000000002\n\
          recv 6100000002\n",
        status: 0,
        written: b"call authentication_banner\n\
          call auth_none 616c696365\n\
          call auth_succeeded\n\
          call channel_open_session 2\n\
          call window_adjusted 2 98\n\
          call channel_eof 2\n\
          call channel_close 2\n\
          input 1\n\
          send - 060000000c7373682d7573657261757468\n\
          input 2\n\
          send - 34\n\
          input 3\n\
          notice 2 Ready 3 32768\n\
          send 2 5b00000007000000020020000000008000\n\
          input 4\n\
          done 1 accepted\n\
          send 2 5e000000070000000368656c\n\
          input 5\n\
          done 3 refused UnknownOpen\n\
          input 6\n\
          notice 2 Granted 100\n\
          notice 2 WindowAdjusted 98\n\
          send 2 5e00000007000000026c6f\n\
          input 7\n\
          done 2 accepted\n\
          send 2 6000000007\n\
          input 8\n\
          done 4 refused UnknownChannel\n\
          input 9\n\
          notice 2 Eof\n\
          input 10\n\
          notice 2 Close\n\
          send 2 6100000007\n\
          input 11\n\
          ok\n",
    },
    Case {
        shows: "an open that the callback leaves to a line",
        script: b"answer none accept\n\
          answer open hold\n\
          recv 050000000c7373682d7573657261757468\n\
          recv 3200000005616c6963650000000e7373682d636f6e6e656374696f6e000000046e6f6e65\n\
          recv 5a0000000773657373696f6e000000070000000300008000\n\
          reject 2 4\n\
          accept 2\n",
        status: 0,
        written: b"call authentication_banner\n\
          call auth_none 616c696365\n\
          call auth_succeeded\n\
          call channel_open_session 2\n\
          input 1\n\
          send - 060000000c7373682d7573657261757468\n\
          input 2\n\
          send - 34\n\
          input 3\n\
          input 4\n\
          done 1 accepted\n\
          send 2 5c0000000700000004000000117265736f757263652073686f727461676500000002656e\n\
          input 5\n\
          done 2 refused UnknownOpen\n\
          input 6\n\
          ok\n",
    },
    Case {
        shows: "a payload that does not fit its layout",
        script: b"recv 050000000c7373682d7573657261757468\n\
          recv 32\n",
        status: 1,
        written: b"call authentication_banner\n\
          input 1\n\
          send - 060000000c7373682d7573657261757468\n\
          input 2\n\
          error Encoding\n",
    },
    Case {
        shows: "no input is asked for past the limit",
        script: b"inputs 1\n\
          recv 050000000c7373682d7573657261757468\n",
        status: 1,
        written: b"call authentication_banner\n\
          input 1\n\
          send - 060000000c7373682d7573657261757468\n\
          error InputLimit\n",
    },
    Case {
        shows: "a setting behind an input line",
        script: b"# The setting stands after an input line.\n\
          at 5\n\
          inputs 7\n",
        status: 2,
        written: b"bad line 3\n",
    },
    Case {
        shows: "\
            two channels that the peer both calls 7, whose data are sent back within small windows",
        script: b"answer none accept\n\
          answer data echo\n\
          config window 8\n\
          recv 050000000c7373682d7573657261757468\n\
          recv 3200000005616c6963650000000e7373682d636f6e6e656374696f6e000000046e6f6e65\n\
          recv 5a0000000773657373696f6e000000070000000300008000\n\
          recv 5a0000000773657373696f6e00000007000003e800008000\n\
          recv 5e000000020000000568656c6c6f\n\
          ext 3 1 6f6f7073\n\
          recv 5e00000003000000026869\n\
          recv 5d0000000200000064\n",
        status: 0,
        written: b"call authentication_banner\n\
          call auth_none 616c696365\n\
          call auth_succeeded\n\
          call channel_open_session 2\n\
          call channel_open_session 3\n\
          call adjust_window 2 8\n\
          call data 2 68656c6c6f\n\
          call data 3 6869\n\
          call window_adjusted 2 98\n\
          input 1\n\
          send - 060000000c7373682d7573657261757468\n\
          input 2\n\
          send - 34\n\
          input 3\n\
          notice 2 Ready 3 32768\n\
          send 2 5b00000007000000020000000800008000\n\
          input 4\n\
          notice 3 Ready 1000 32768\n\
          send 3 5b00000007000000030000000800008000\n\
          input 5\n\
          notice 2 Data 68656c6c6f\n\
          send 2 5d0000000700000005\n\
          send 2 5e000000070000000368656c\n\
          input 6\n\
          notice 3 Data 6869\n\
          send 3 5e00000007000000026869\n\
          input 7\n\
          notice 2 Granted 100\n\
          notice 2 WindowAdjusted 98\n\
          send 2 5e00000007000000026c6f\n\
          input 8\n\
          done 1 accepted\n\
          send 3 5f0000000700000001000000046f6f7073\n\
          input 9\n\
          ok\n",
    },
    Case {
        shows: "channels that this side opens: one is confirmed and one refused",
        script: b"answer none accept\n\
          recv 050000000c7373682d7573657261757468\n\
          recv 3200000005616c6963650000000e7373682d636f6e6e656374696f6e000000046e6f6e65\n\
          open session\n\
          data 2 6869\n\
          recv 5b00000002000000050000040000000100\n\
          data 2 6869\n\
          recv 5e00000002000000026f6b\n\
          open session\n\
          recv 5c00000003000000040000000466756c6c00000002656e\n\
          recv 6100000002\n",
        status: 0,
        written: b"call authentication_banner\n\
          call auth_none 616c696365\n\
          call auth_succeeded\n\
          call channel_open_confirmation 2 256 1024\n\
          call data 2 6f6b\n\
          call channel_close 2\n\
          input 1\n\
          send - 060000000c7373682d7573657261757468\n\
          input 2\n\
          send - 34\n\
          input 3\n\
          done 1 opened 2\n\
          send 2 5a0000000773657373696f6e000000020020000000008000\n\
          input 4\n\
          done 2 refused NotConfirmed\n\
          input 5\n\
          notice 2 Ready 1024 256\n\
          notice 2 Open 2 256 1024\n\
          input 6\n\
          done 3 accepted\n\
          send 2 5e00000005000000026869\n\
          input 7\n\
          notice 2 Data 6f6b\n\
          input 8\n\
          done 4 opened 3\n\
          send 3 5a0000000773657373696f6e000000030020000000008000\n\
          input 9\n\
          notice 3 OpenFailure 4\n\
          input 10\n\
          notice 2 Close\n\
          send 2 6100000005\n\
          input 11\n\
          ok\n",
    },
];

#[test]
fn the_examples_of_the_page_print_what_it_says(rt: HostRuntime) {
    for case in &EXAMPLES {
        assert!(rt; case.holds(rt.alloc()), "{}", case.shows);
    }
}

const USAGE: &[u8] =
    b"usage: ssh_script run | generate <n> | threads <n> | sftp | ends <window> <packet> | gateway\n";

// Words, the status, and what is written for them.
static WORDS: [(&[&str], u8, &[u8]); 20] = [
    (&["--help"], 0, USAGE),
    (&["--version"], 0, b"ssh_script 0.1.0\n"),
    // A word more, other letters, and no word ask for nothing.
    (&["--help", "run"], 2, USAGE),
    (&["--Version"], 2, USAGE),
    (&["run", "--help"], 2, USAGE),
    (&["run", "run"], 2, USAGE),
    (&["Run"], 2, USAGE),
    (&["threads", "2"], 2, USAGE),
    (&["sftp", "run"], 2, USAGE),
    (&[], 2, USAGE),
    // A session is made up, of 1 to 1000 channels.
    (
        &["generate", "3"],
        0,
        b"channels 3\nframes 11\nbytes 196608\nok\n",
    ),
    (&["generate", "0"], 2, USAGE),
    (&["generate", "03"], 2, USAGE),
    (&["generate", "1001"], 2, USAGE),
    (&["generate"], 2, USAGE),
    (&["generate", "3", "3"], 2, USAGE),
    // Two ends have a window and a packet size of four bytes, and the packet size is not 0.
    (&["ends", "3"], 2, USAGE),
    (&["ends", "3", "0"], 2, USAGE),
    (&["ends", "4294967296", "100"], 2, USAGE),
    (&["ends", "3", "0100"], 2, USAGE),
];

// Whether a run with these words comes to this. The first read fails: the source is not read.
fn are_answered(alloc: Global, words: &[&str], status: u8, written: &[u8]) -> bool {
    comes_to(
        alloc,
        words,
        b"end\n",
        (&[1], &[]),
        Outcome { status, written },
    )
}

#[test]
fn words_that_ask_for_no_script_read_none(rt: HostRuntime) {
    for (words, status, line) in &WORDS {
        assert!(rt; are_answered(rt.alloc(), *words, *status, *line));
    }
}

#[test]
fn a_session_of_a_thousand_channels_is_told_in_numbers(rt: HostRuntime) {
    let told = b"channels 1000\nframes 3002\nbytes 65536000\nok\n";
    assert!(rt; are_answered(rt.alloc(), &["generate", "1000"], 0, told));
}
