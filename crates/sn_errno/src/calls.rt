//! The table of system calls: names and numbers.

ghost use Rattle.std.specs.Prelude.{◌≡◌, ℕ};
ghost use Rattle.sn_errno.specs.Calls.{call_numbered, known_name, name_for};

/// The system calls of the table, by their names and numbers.
///
/// Linux's asm-generic/unistd.h, whose numbers RISC-V has.
#[derive(Clone, Copy, Debug, PartialEq, Eq)]
pub enum CallNo {
    Getcwd = 17,
    Dup = 23,
    Dup3 = 24,
    Fcntl = 25,
    Ioctl = 29,
    Mkdirat = 34,
    Unlinkat = 35,
    Symlinkat = 36,
    Linkat = 37,
    Ftruncate = 46,
    Faccessat = 48,
    Chdir = 49,
    Openat = 56,
    Close = 57,
    Pipe2 = 59,
    Getdents64 = 61,
    Lseek = 62,
    Read = 63,
    Write = 64,
    Readv = 65,
    Writev = 66,
    Pread64 = 67,
    Pwrite64 = 68,
    Readlinkat = 78,
    Newfstatat = 79,
    Fstat = 80,
    Exit = 93,
    ExitGroup = 94,
    SetTidAddress = 96,
    Futex = 98,
    SetRobustList = 99,
    ClockGettime = 113,
    SchedYield = 124,
    Kill = 129,
    RtSigaction = 134,
    RtSigprocmask = 135,
    Uname = 160,
    Getpid = 172,
    Getppid = 173,
    Getuid = 174,
    Geteuid = 175,
    Getgid = 176,
    Getegid = 177,
    Gettid = 178,
    Brk = 214,
    Munmap = 215,
    Clone = 220,
    Execve = 221,
    Mmap = 222,
    Mprotect = 226,
    Wait4 = 260,
    Renameat2 = 276,
    Getrandom = 278,
}

impl CallNo {
    /// The call with this number, or `None` where the table has no row for it. Any number may be asked for.
    #[tactic(auto, unfolding(crate::specs::Calls::call_numbered, crate::specs::Calls::row_numbered))]
    pub fn of(number: u64) -> Option<CallNo>
        ensures { result ≡ call_numbered number }
    {
        match number {
            17 => Some(CallNo::Getcwd),
            23 => Some(CallNo::Dup),
            24 => Some(CallNo::Dup3),
            25 => Some(CallNo::Fcntl),
            29 => Some(CallNo::Ioctl),
            34 => Some(CallNo::Mkdirat),
            35 => Some(CallNo::Unlinkat),
            36 => Some(CallNo::Symlinkat),
            37 => Some(CallNo::Linkat),
            46 => Some(CallNo::Ftruncate),
            48 => Some(CallNo::Faccessat),
            49 => Some(CallNo::Chdir),
            56 => Some(CallNo::Openat),
            57 => Some(CallNo::Close),
            59 => Some(CallNo::Pipe2),
            61 => Some(CallNo::Getdents64),
            62 => Some(CallNo::Lseek),
            63 => Some(CallNo::Read),
            64 => Some(CallNo::Write),
            65 => Some(CallNo::Readv),
            66 => Some(CallNo::Writev),
            67 => Some(CallNo::Pread64),
            68 => Some(CallNo::Pwrite64),
            78 => Some(CallNo::Readlinkat),
            79 => Some(CallNo::Newfstatat),
            80 => Some(CallNo::Fstat),
            93 => Some(CallNo::Exit),
            94 => Some(CallNo::ExitGroup),
            96 => Some(CallNo::SetTidAddress),
            98 => Some(CallNo::Futex),
            99 => Some(CallNo::SetRobustList),
            113 => Some(CallNo::ClockGettime),
            124 => Some(CallNo::SchedYield),
            129 => Some(CallNo::Kill),
            134 => Some(CallNo::RtSigaction),
            135 => Some(CallNo::RtSigprocmask),
            160 => Some(CallNo::Uname),
            172 => Some(CallNo::Getpid),
            173 => Some(CallNo::Getppid),
            174 => Some(CallNo::Getuid),
            175 => Some(CallNo::Geteuid),
            176 => Some(CallNo::Getgid),
            177 => Some(CallNo::Getegid),
            178 => Some(CallNo::Gettid),
            214 => Some(CallNo::Brk),
            215 => Some(CallNo::Munmap),
            220 => Some(CallNo::Clone),
            221 => Some(CallNo::Execve),
            222 => Some(CallNo::Mmap),
            226 => Some(CallNo::Mprotect),
            260 => Some(CallNo::Wait4),
            276 => Some(CallNo::Renameat2),
            278 => Some(CallNo::Getrandom),
            _ => None,
        }
    }

    /// The call's number.
    #[tactic(auto, using(crate::proofs::CallLaws::only_number))]
    pub fn number(self) -> u64
        ensures row { call_numbered result ≡ Some self }
        ensures only { (number : ℕ) → call_numbered number ≡ Some self → number ≡ result }
    {
        self.as_number()
    }

    /// The number that the list above has beside the call: the number of its row.
    #[tactic(auto, unfolding(crate::specs::Calls::call_numbered, crate::specs::Calls::row_numbered))]
    fn as_number(self) -> u64
        ensures { call_numbered result ≡ Some self }
    {
        self as u64
    }

    /// The call's name: the one that the table has beside the call's number.
    #[tactic(auto, using(crate::proofs::CallLaws::name_beside))]
    pub fn name(self) -> &'static str
        ensures { (number : ℕ) → call_numbered number ≡ Some self → known_name number ≡ Some result.now }
    {
        self.name_in_row()
    }

    /// The name in the call's row.
    fn name_in_row(self) -> &'static str
        ensures { result.now ≡ name_for self }
    {
        match self {
            CallNo::Getcwd => "getcwd",
            CallNo::Dup => "dup",
            CallNo::Dup3 => "dup3",
            CallNo::Fcntl => "fcntl",
            CallNo::Ioctl => "ioctl",
            CallNo::Mkdirat => "mkdirat",
            CallNo::Unlinkat => "unlinkat",
            CallNo::Symlinkat => "symlinkat",
            CallNo::Linkat => "linkat",
            CallNo::Ftruncate => "ftruncate",
            CallNo::Faccessat => "faccessat",
            CallNo::Chdir => "chdir",
            CallNo::Openat => "openat",
            CallNo::Close => "close",
            CallNo::Pipe2 => "pipe2",
            CallNo::Getdents64 => "getdents64",
            CallNo::Lseek => "lseek",
            CallNo::Read => "read",
            CallNo::Write => "write",
            CallNo::Readv => "readv",
            CallNo::Writev => "writev",
            CallNo::Pread64 => "pread64",
            CallNo::Pwrite64 => "pwrite64",
            CallNo::Readlinkat => "readlinkat",
            CallNo::Newfstatat => "newfstatat",
            CallNo::Fstat => "fstat",
            CallNo::Exit => "exit",
            CallNo::ExitGroup => "exit_group",
            CallNo::SetTidAddress => "set_tid_address",
            CallNo::Futex => "futex",
            CallNo::SetRobustList => "set_robust_list",
            CallNo::ClockGettime => "clock_gettime",
            CallNo::SchedYield => "sched_yield",
            CallNo::Kill => "kill",
            CallNo::RtSigaction => "rt_sigaction",
            CallNo::RtSigprocmask => "rt_sigprocmask",
            CallNo::Uname => "uname",
            CallNo::Getpid => "getpid",
            CallNo::Getppid => "getppid",
            CallNo::Getuid => "getuid",
            CallNo::Geteuid => "geteuid",
            CallNo::Getgid => "getgid",
            CallNo::Getegid => "getegid",
            CallNo::Gettid => "gettid",
            CallNo::Brk => "brk",
            CallNo::Munmap => "munmap",
            CallNo::Clone => "clone",
            CallNo::Execve => "execve",
            CallNo::Mmap => "mmap",
            CallNo::Mprotect => "mprotect",
            CallNo::Wait4 => "wait4",
            CallNo::Renameat2 => "renameat2",
            CallNo::Getrandom => "getrandom",
        }
    }
}
