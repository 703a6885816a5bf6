//! The names of flags and of places in the common guest's memory, by the manual pages.

/// Places: the break's start, the first addresses behind the stack and behind the range that mappings find, the image.
fn place_of(text: &str) -> Option<u64> {
    match text {
        "HEAP" => Some(69_632),
        "TOP" => Some(1 << 38),
        "MAPS" => Some(0x3f_fff0_0000),
        "IMAGE" => Some(65_536),
        _ => None,
    }
}

/// mmap(2).
fn mapping_of(text: &str) -> Option<u64> {
    match text {
        "PROT_NONE" => Some(0),
        "PROT_READ" => Some(1),
        "PROT_WRITE" => Some(2),
        "PROT_EXEC" => Some(4),
        "MAP_SHARED" => Some(1),
        "MAP_PRIVATE" => Some(2),
        "MAP_FIXED" => Some(0x10),
        "MAP_ANONYMOUS" => Some(0x20),
        _ => None,
    }
}

/// clone(2).
fn cloning_of(text: &str) -> Option<u64> {
    match text {
        "SIGCHLD" => Some(17),
        "CLONE_VM" => Some(0x100),
        "CLONE_FS" => Some(0x200),
        "CLONE_FILES" => Some(0x400),
        "CLONE_SIGHAND" => Some(0x800),
        "CLONE_THREAD" => Some(0x1_0000),
        "CLONE_SYSVSEM" => Some(0x4_0000),
        "CLONE_SETTLS" => Some(0x8_0000),
        "CLONE_PARENT_SETTID" => Some(0x10_0000),
        "CLONE_CHILD_CLEARTID" => Some(0x20_0000),
        "CLONE_DETACHED" => Some(0x40_0000),
        "CLONE_CHILD_SETTID" => Some(0x100_0000),
        _ => None,
    }
}

/// futex(2), wait4(2), open(2) and fcntl(2).
fn other_of(text: &str) -> Option<u64> {
    match text {
        "FUTEX_WAIT" => Some(0),
        "FUTEX_WAKE" => Some(1),
        "FUTEX_PRIVATE_FLAG" => Some(128),
        "WNOHANG" => Some(1),
        "O_WRONLY" => Some(1),
        "O_APPEND" => Some(0o2000),
        "O_NONBLOCK" => Some(0o4000),
        "O_CLOEXEC" => Some(0o2000000),
        "F_DUPFD" => Some(0),
        "F_GETFD" => Some(1),
        "F_SETFD" => Some(2),
        "F_GETFL" => Some(3),
        "F_SETFL" => Some(4),
        "F_DUPFD_CLOEXEC" => Some(1030),
        _ => None,
    }
}

/// What a name stands for.
pub fn named(text: &str) -> Option<u64> {
    if let Some(value) = place_of(text) {
        return Some(value);
    }
    if let Some(value) = mapping_of(text) {
        return Some(value);
    }
    if let Some(value) = cloning_of(text) {
        return Some(value);
    }
    other_of(text)
}
