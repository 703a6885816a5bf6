//! The messages that are measured: one of each kind, in hexadecimal digits.

/// A message: what it is called, and its bytes.
#[derive(Clone, Copy)]
pub struct Row {
    pub name: &'static str,
    pub digits: &'static str,
}

#[rattlefmt::skip]
pub const REQUESTS: &[Row] = &[
    Row { name: "Mount", digits: "0c0000000100000001000000" },
    Row { name: "FStat", digits: "10000000020000000100000000000000" },
    Row { name: "SetStat", digits: "180000000300000005000000000000000010000000000000" },
    Row { name: "Walk", digits: "16000000040000000100000000000000010002006162" },
    Row { name: "OpenAt", digits: "1400000005000000090000000000000002000000" },
    Row { name: "OpenCreateAt", digits: "1b000000060000000100000000000000a401000001000000010066" },
    Row { name: "Close", digits: "10000000070000000c00000000000000" },
    Row { name: "PRead", digits: "1c000000090000000300000000000000000000000001000000000100" },
    Row { name: "PWrite", digits: "1f0000000a000000030000000000000008000000000000000300000068690a" },
    Row { name: "MkdirAt", digits: "170000000b0000000100000000000000ed010000010064" },
    Row { name: "SymlinkAt", digits: "190000000c000000010000000000000001006c020000002f78" },
    Row { name: "ReadLinkAt", digits: "100000000d0000000400000000000000" },
    Row { name: "UnlinkAt", digits: "1f0000000e0000000100000000000000060000000000000000000000010066" },
    Row { name: "RenameAt", digits: "260000000f000000010000000000000002000000000000000000000000000000010061010062" },
    Row { name: "Getdents64", digits: "1400000010000000010000000000000028000000" },
];

#[rattlefmt::skip]
pub const ANSWERS: &[Row] = &[
    Row { name: "Error", digits: "0c0000000080000016000000" },
    Row { name: "Mount", digits: "210000000180000001000000010000000000000004ed0100000000000000000000" },
    Row { name: "FStat", digits: "150000000280000008a40100000300000000000000" },
    Row { name: "SetStat", digits: "0800000003800000" },
    Row { name: "Walk", digits: "3500000004800000000200090000000000000004c001000000000000000000000a0000000000000008800100000700000000000000" },
    Row { name: "OpenAt", digits: "10000000058000001400000000000000" },
    Row { name: "OpenCreateAt", digits: "250000000680000009000000000000000a0000000000000008a40100000000000000000000" },
    Row { name: "Close", digits: "0800000007800000" },
    Row { name: "PRead", digits: "0f0000000980000003000000616263" },
    Row { name: "PWrite", digits: "0c0000000a80000000000100" },
    Row { name: "MkdirAt", digits: "1d0000000b800000090000000000000004ed0100000000000000000000" },
    Row { name: "SymlinkAt", digits: "1d0000000c80000009000000000000000aff0100000200000000000000" },
    Row { name: "ReadLinkAt", digits: "170000000d8000000b0000002f6574632f706173737764" },
    Row { name: "UnlinkAt", digits: "080000000e800000" },
    Row { name: "RenameAt", digits: "080000000f800000" },
    Row { name: "Getdents64", digits: "1300000010800000010200040100640a01006c" },
];
