// Banners and rounds of keyboard-interactive: scripts, and what the program writes for them.
use ssh_scripted::Case;
use std::test::*;

static ROUNDS: [Case; 14] = [
    Case {
        shows: "the banner follows the reply to the service request",
        script: b"banner 68690a\nrecv 050000000c7373682d7573657261757468\n",
        status: 0,
        written: b"\
            call authentication_banner\n\
            input 1\n\
            send - 060000000c7373682d7573657261757468\n\
            send - 350000000368690a00000000\n\
            input 2\nok\n",
    },
    Case {
        shows: "the last banner counts, and one may be empty",
        script: b"banner 68690a\nbanner -\nrecv 050000000c7373682d7573657261757468\n",
        status: 0,
        written: b"\
            call authentication_banner\n\
            input 1\n\
            send - 060000000c7373682d7573657261757468\n\
            send - 350000000000000000\n\
            input 2\nok\n",
    },
    Case {
        shows: "a banner callback that fails gives no banner",
        script: b"banner 68690a\nanswer banner fail\nrecv 050000000c7373682d7573657261757468\n",
        status: 1,
        written: b"call authentication_banner\ninput 1\nerror Handler\n",
    },
    Case {
        shows: "a round: the prompt, and the response to it",
        script: b"\
            answer interactive ask\n\
            answer interactive accept\n\
            recv 050000000c7373682d7573657261757468\n\
            recv 3200000005616c6963650000000e7373682d636f6e6e656374696f6e000000146b6579626f61\
            72642d696e7465726163746976650000000000000000\n\
            recv 3d000000010000000431323334\n",
        status: 0,
        written: b"\
            call authentication_banner\n\
            call auth_keyboard_interactive 616c696365 - none\n\
            call auth_keyboard_interactive 616c696365 - 31323334\n\
            call auth_succeeded\n\
            input 1\n\
            send - 060000000c7373682d7573657261757468\n\
            input 2\n\
            send - 3c0000000000000000000000000000000100000006436f64653a2000\n\
            input 3\n\
            send - 34\n\
            input 4\nok\n",
    },
    Case {
        shows: "\
            submethods, and two rounds: no response to the first prompt, and two to the second, \
            the first of them empty",
        script: b"\
            answer interactive ask\n\
            answer interactive ask\n\
            answer interactive accept\n\
            recv 050000000c7373682d7573657261757468\n\
            recv 3200000005616c6963650000000e7373682d636f6e6e656374696f6e000000146b6579626f61\
            72642d696e74657261637469766500000002656e0000000770616d2c6f7470\n\
            recv 3d00000000\n\
            recv 3d00000002000000000000000161\n",
        status: 0,
        written: b"\
            call authentication_banner\n\
            call auth_keyboard_interactive 616c696365 70616d2c6f7470 none\n\
            call auth_keyboard_interactive 616c696365 70616d2c6f7470\n\
            call auth_keyboard_interactive 616c696365 70616d2c6f7470 - 61\n\
            call auth_succeeded\n\
            input 1\n\
            send - 060000000c7373682d7573657261757468\n\
            input 2\n\
            send - 3c0000000000000000000000000000000100000006436f64653a2000\n\
            input 3\n\
            send - 3c0000000000000000000000000000000100000006436f64653a2000\n\
            input 4\n\
            send - 34\n\
            input 5\nok\n",
    },
    Case {
        shows: "without a line the user is refused, and no method is taken away",
        script: b"\
            recv 050000000c7373682d7573657261757468\n\
            recv 3200000005616c6963650000000e7373682d636f6e6e656374696f6e000000146b6579626f61\
            72642d696e7465726163746976650000000000000000\n",
        status: 0,
        written: b"\
            call authentication_banner\n\
            call auth_keyboard_interactive 616c696365 - none\n\
            input 1\n\
            send - 060000000c7373682d7573657261757468\n\
            input 2\n\
            send - 33000000366e6f6e652c70617373776f72642c7075626c69636b65792c686f737462617365\
            642c6b6579626f6172642d696e74657261637469766500 hold 1000\n\
            input 3\nok\n",
    },
    Case {
        shows: "the handler fails",
        script: b"\
            answer interactive fail\n\
            recv 050000000c7373682d7573657261757468\n\
            recv 3200000005616c6963650000000e7373682d636f6e6e656374696f6e000000146b6579626f61\
            72642d696e7465726163746976650000000000000000\n",
        status: 1,
        written: b"\
            call authentication_banner\n\
            call auth_keyboard_interactive 616c696365 - none\n\
            input 1\n\
            send - 060000000c7373682d7573657261757468\n\
            input 2\nerror Handler\n",
    },
    Case {
        shows: "the handler does not have the method",
        script: b"\
            answer interactive unsupported\n\
            recv 050000000c7373682d7573657261757468\n\
            recv 3200000005616c6963650000000e7373682d636f6e6e656374696f6e000000146b6579626f61\
            72642d696e7465726163746976650000000000000000\n",
        status: 1,
        written: b"\
            call authentication_banner\n\
            call auth_keyboard_interactive 616c696365 - none\n\
            input 1\n\
            send - 060000000c7373682d7573657261757468\n\
            input 2\nerror UnsupportedAuthMethod\n",
    },
    Case {
        shows: "\
            a request by bob ends alice's round: the response after it is refused unread, and two \
            rejections are the cap",
        script: b"\
            config attempts 2\n\
            answer interactive ask\n\
            recv 050000000c7373682d7573657261757468\n\
            recv 3200000005616c6963650000000e7373682d636f6e6e656374696f6e000000146b6579626f61\
            72642d696e7465726163746976650000000000000000\n\
            recv 3200000003626f620000000e7373682d636f6e6e656374696f6e000000046e6f6e65\n\
            recv 3d00000000\n\
            recv 3200000003626f620000000e7373682d636f6e6e656374696f6e000000046e6f6e65\n",
        status: 0,
        written: b"\
            call authentication_banner\n\
            call auth_keyboard_interactive 616c696365 - none\n\
            call auth_none 626f62\n\
            input 1\n\
            send - 060000000c7373682d7573657261757468\n\
            input 2\n\
            send - 3c0000000000000000000000000000000100000006436f64653a2000\n\
            input 3\n\
            send - 330000003170617373776f72642c7075626c69636b65792c686f737462617365642c6b6579\
            626f6172642d696e74657261637469766500 hold 1000\n\
            input 4\n\
            send - 330000003170617373776f72642c7075626c69636b65792c686f737462617365642c6b6579\
            626f6172642d696e74657261637469766500 hold 1000\n\
            input 5\n\
            send - 010000000e00000020546f6f206d616e792061757468656e7469636174696f6e2061747465\
            6d70747300000000\n\
            ok\n",
    },
    Case {
        shows: "two responses are announced, and one is there",
        script: b"\
            answer interactive ask\n\
            recv 050000000c7373682d7573657261757468\n\
            recv 3200000005616c6963650000000e7373682d636f6e6e656374696f6e000000146b6579626f61\
            72642d696e7465726163746976650000000000000000\n\
            recv 3d000000020000000161\n",
        status: 1,
        written: b"\
            call authentication_banner\n\
            call auth_keyboard_interactive 616c696365 - none\n\
            input 1\n\
            send - 060000000c7373682d7573657261757468\n\
            input 2\n\
            send - 3c0000000000000000000000000000000100000006436f64653a2000\n\
            input 3\nerror Encoding\n",
    },
    Case {
        shows: "responses without end are announced",
        script: b"\
            answer interactive ask\n\
            recv 050000000c7373682d7573657261757468\n\
            recv 3200000005616c6963650000000e7373682d636f6e6e656374696f6e000000146b6579626f61\
            72642d696e7465726163746976650000000000000000\n\
            recv 3dffffffff\n",
        status: 1,
        written: b"\
            call authentication_banner\n\
            call auth_keyboard_interactive 616c696365 - none\n\
            input 1\n\
            send - 060000000c7373682d7573657261757468\n\
            input 2\n\
            send - 3c0000000000000000000000000000000100000006436f64653a2000\n\
            input 3\nerror Encoding\n",
    },
    Case {
        shows: "a byte follows the last response",
        script: b"\
            answer interactive ask\n\
            recv 050000000c7373682d7573657261757468\n\
            recv 3200000005616c6963650000000e7373682d636f6e6e656374696f6e000000146b6579626f61\
            72642d696e7465726163746976650000000000000000\n\
            recv 3d00000001000000016100\n",
        status: 1,
        written: b"\
            call authentication_banner\n\
            call auth_keyboard_interactive 616c696365 - none\n\
            input 1\n\
            send - 060000000c7373682d7573657261757468\n\
            input 2\n\
            send - 3c0000000000000000000000000000000100000006436f64653a2000\n\
            input 3\nerror Encoding\n",
    },
    Case {
        shows: "\
            a response before any request is refused unread, and the next request is still the \
            first",
        script: b"\
            config reject-initial 10\n\
            recv 050000000c7373682d7573657261757468\n\
            recv 3dff\n\
            recv 3200000005616c6963650000000e7373682d636f6e6e656374696f6e000000046e6f6e65\n",
        status: 0,
        written: b"\
            call authentication_banner\n\
            call auth_none 616c696365\n\
            input 1\n\
            send - 060000000c7373682d7573657261757468\n\
            input 2\n\
            send - 33000000366e6f6e652c70617373776f72642c7075626c69636b65792c686f737462617365\
            642c6b6579626f6172642d696e74657261637469766500 hold 1000\n\
            input 3\n\
            send - 330000003170617373776f72642c7075626c69636b65792c686f737462617365642c6b6579\
            626f6172642d696e74657261637469766500 hold 10\n\
            input 4\nok\n",
    },
    Case {
        shows: "a response before the service is asked for does nothing",
        script: b"recv 3d00000000\n",
        status: 0,
        written: b"input 1\ninput 2\nok\n",
    },
];

#[test]
fn prompts(rt: HostRuntime) {
    for case in &ROUNDS {
        assert!(rt; case.holds(rt.alloc()), "{}", case.shows);
    }
}
