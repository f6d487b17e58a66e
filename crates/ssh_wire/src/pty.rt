// The modes of a terminal.
ghost use Rattle.std.specs.Prelude.{◌≡◌, IfSome, Some};
ghost use Rattle.ssh_wire.specs.declared.pty.Pty.{Pty};
ghost use Rattle.ssh_wire.specs.Ptys.{opcode};

/// A mode of a terminal, by its name in POSIX (RFC 4254 section 8).
#[allow(non_camel_case_types)]
#[derive(Clone, Copy, Debug)]
pub enum Pty {
    /// No mode: the end of the modes.
    TTY_OP_END = 0,
    /// Interrupts.
    VINTR = 1,
    /// Quits.
    VQUIT = 2,
    /// Erases the character to the left.
    VERASE = 3,
    /// Kills the line.
    VKILL = 4,
    /// Ends the input.
    VEOF = 5,
    /// Ends the line, beside carriage return and line feed.
    VEOL = 6,
    /// Ends the line, as a second such character.
    VEOL2 = 7,
    /// Continues output that was paused.
    VSTART = 8,
    /// Pauses output.
    VSTOP = 9,
    /// Suspends the program.
    VSUSP = 10,
    /// Suspends the program once it reads.
    VDSUSP = 11,
    /// Prints the line again.
    VREPRINT = 12,
    /// Erases a word to the left.
    VWERASE = 13,
    /// Takes the next character as it is.
    VLNEXT = 14,
    /// Discards pending output.
    VFLUSH = 15,
    /// Switches to another shell layer.
    VSWTCH = 16,
    /// Prints the load and the state of the job.
    VSTATUS = 17,
    /// Switches the discarding of output.
    VDISCARD = 18,
    /// Ignores parity errors.
    IGNPAR = 30,
    /// Marks parity and framing errors.
    PARMRK = 31,
    /// Checks parity.
    INPCK = 32,
    /// Strips the eighth bit.
    ISTRIP = 33,
    /// Maps a line feed to a carriage return on input.
    INLCR = 34,
    /// Ignores carriage returns on input.
    IGNCR = 35,
    /// Maps a carriage return to a line feed on input.
    ICRNL = 36,
    /// Maps upper case to lower case on input.
    IUCLC = 37,
    /// Controls the flow of output.
    IXON = 38,
    /// Any character restarts output.
    IXANY = 39,
    /// Controls the flow of input.
    IXOFF = 40,
    /// Rings where the input is full.
    IMAXBEL = 41,
    /// Input is UTF-8 (RFC 8160).
    IUTF8 = 42,
    /// Characters such as `VINTR` give signals.
    ISIG = 50,
    /// Edits input by lines.
    ICANON = 51,
    /// A backslash comes before upper case.
    XCASE = 52,
    /// Echoes input.
    ECHO = 53,
    /// Erases what is erased on the screen.
    ECHOE = 54,
    /// Ends the line after a killed one.
    ECHOK = 55,
    /// Echoes a line feed though nothing else is echoed.
    ECHONL = 56,
    /// Does not flush after an interrupt.
    NOFLSH = 57,
    /// Stops a job in the background that writes.
    TOSTOP = 58,
    /// Has extended functions.
    IEXTEN = 59,
    /// Echoes control characters as `^` and a letter.
    ECHOCTL = 60,
    /// Erases a killed line on the screen.
    ECHOKE = 61,
    /// Prints pending input again.
    PENDIN = 62,
    /// Processes output.
    OPOST = 70,
    /// Maps lower case to upper case on output.
    OLCUC = 71,
    /// Maps a line feed to a carriage return and a line feed on output.
    ONLCR = 72,
    /// Maps a carriage return to a line feed on output.
    OCRNL = 73,
    /// Prints no carriage return at column 0.
    ONOCR = 74,
    /// A line feed returns the carriage.
    ONLRET = 75,
    /// Seven bits.
    CS7 = 90,
    /// Eight bits.
    CS8 = 91,
    /// Has parity.
    PARENB = 92,
    /// Odd parity, else even.
    PARODD = 93,
    /// The input's speed in bits a second.
    TTY_OP_ISPEED = 128,
    /// The output's speed in bits a second.
    TTY_OP_OSPEED = 129,
}

impl Pty {
    /// The mode's code on the wire.
    pub fn code(self) -> u8
        ensures { result ≡ opcode self }
    {
        self as u8
    }

    /// The mode that has this code. There is none for 0, which ends the modes, and for a code that
    /// the standard does not name.
    pub fn from_u8(code: u8) -> Option<Pty>
        ensures code { IfSome result (λ pty. opcode pty ≡ code) }
        ensures known { (pty : Pty) → (pty ≡ Pty.TTY_OP_END → ⊥) → opcode pty ≡ code
            → result ≡ Some pty }
        ensures end { result ≡ Some Pty.TTY_OP_END → ⊥ }
    {
        Some(match code {
            1 => Pty::VINTR,
            2 => Pty::VQUIT,
            3 => Pty::VERASE,
            4 => Pty::VKILL,
            5 => Pty::VEOF,
            6 => Pty::VEOL,
            7 => Pty::VEOL2,
            8 => Pty::VSTART,
            9 => Pty::VSTOP,
            10 => Pty::VSUSP,
            11 => Pty::VDSUSP,
            12 => Pty::VREPRINT,
            13 => Pty::VWERASE,
            14 => Pty::VLNEXT,
            15 => Pty::VFLUSH,
            16 => Pty::VSWTCH,
            17 => Pty::VSTATUS,
            18 => Pty::VDISCARD,
            30 => Pty::IGNPAR,
            31 => Pty::PARMRK,
            32 => Pty::INPCK,
            33 => Pty::ISTRIP,
            34 => Pty::INLCR,
            35 => Pty::IGNCR,
            36 => Pty::ICRNL,
            37 => Pty::IUCLC,
            38 => Pty::IXON,
            39 => Pty::IXANY,
            40 => Pty::IXOFF,
            41 => Pty::IMAXBEL,
            42 => Pty::IUTF8,
            50 => Pty::ISIG,
            51 => Pty::ICANON,
            52 => Pty::XCASE,
            53 => Pty::ECHO,
            54 => Pty::ECHOE,
            55 => Pty::ECHOK,
            56 => Pty::ECHONL,
            57 => Pty::NOFLSH,
            58 => Pty::TOSTOP,
            59 => Pty::IEXTEN,
            60 => Pty::ECHOCTL,
            61 => Pty::ECHOKE,
            62 => Pty::PENDIN,
            70 => Pty::OPOST,
            71 => Pty::OLCUC,
            72 => Pty::ONLCR,
            73 => Pty::OCRNL,
            74 => Pty::ONOCR,
            75 => Pty::ONLRET,
            90 => Pty::CS7,
            91 => Pty::CS8,
            92 => Pty::PARENB,
            93 => Pty::PARODD,
            128 => Pty::TTY_OP_ISPEED,
            129 => Pty::TTY_OP_OSPEED,
            _ => return None,
        })
    }
}

/// Two modes are one where their codes are.
impl PartialEq for Pty {
    ghost use Rattle.std.specs.Cmp.{partial_equiv_from_equiv};
    ghost use Rattle.ssh_wire.specs.TerminalModes.{is_same_mode, is_same_mode-laws};

    ghost eq = { is_same_mode };

    ghost laws = { partial_equiv_from_equiv is_same_mode-laws };

    fn eq(&self, other: &Pty) -> bool {
        self.code() == other.code()
    }
}

impl Eq for Pty {
    ghost use Rattle.ssh_wire.specs.TerminalModes.{is_same_mode-laws};

    ghost laws = { is_same_mode-laws };
}
