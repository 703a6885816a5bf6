//! The fields of an image's headers, by their names.

use read_cases::number;

/// A field of a header: where it begins there, and how many bytes it has.
///
/// elf(5), ELF header (Ehdr) and Program header (Phdr).
struct Field {
    name: &'static str,
    place: usize,
    width: usize,
}

#[rattlefmt::skip]
const OF_THE_FILE: &[Field] = &[
    Field { name: "e_ident[EI_MAG0]", place: 0, width: 1 },
    Field { name: "e_ident[EI_MAG3]", place: 3, width: 1 },
    Field { name: "e_ident[EI_CLASS]", place: 4, width: 1 },
    Field { name: "e_ident[EI_DATA]", place: 5, width: 1 },
    Field { name: "e_ident[EI_VERSION]", place: 6, width: 1 },
    Field { name: "e_type", place: 16, width: 2 },
    Field { name: "e_machine", place: 18, width: 2 },
    Field { name: "e_entry", place: 24, width: 8 },
    Field { name: "e_phoff", place: 32, width: 8 },
    Field { name: "e_flags", place: 48, width: 4 },
    Field { name: "e_phentsize", place: 54, width: 2 },
    Field { name: "e_phnum", place: 56, width: 2 },
];

#[rattlefmt::skip]
const OF_A_SEGMENT: &[Field] = &[
    Field { name: "p_type", place: 0, width: 4 },
    Field { name: "p_flags", place: 4, width: 4 },
    Field { name: "p_offset", place: 8, width: 8 },
    Field { name: "p_vaddr", place: 16, width: 8 },
    Field { name: "p_filesz", place: 32, width: 8 },
    Field { name: "p_memsz", place: 40, width: 8 },
];

/// Puts a number into the bytes of a field of the header at a place, the lowest byte first. Whether it fits.
fn put(file: &mut [u8], header: usize, field: &Field, value: u64) -> bool {
    let mut rest = value;
    for index in 0..field.width {
        let place = header.saturating_add(field.place).saturating_add(index);
        match file.get_mut(place) {
            Some(byte) => *byte = (rest % 256) as u8,
            None => return false,
        }
        rest /= 256;
    }
    rest == 0
}

fn put_into(file: &mut [u8], header: usize, fields: &[Field], name: &str, value: u64) -> bool {
    match fields.iter().find(|field| field.name == name) {
        Some(field) => put(file, header, field, value),
        None => false,
    }
}

/// `FIELD = N`, or `phdr[0].FIELD = N` and `phdr[1].FIELD = N` for the program headers: gives a field another number.
/// Whether it is one.
pub fn change(file: &mut [u8], text: &str) -> bool {
    let Some((name, value)) = text.split_once(" = ") else {
        return false;
    };
    let Some(value) = number(value) else {
        return false;
    };
    match name.split_once('.') {
        Some(("phdr[0]", name)) => put_into(file, 64, OF_A_SEGMENT, name, value),
        Some(("phdr[1]", name)) => put_into(file, 120, OF_A_SEGMENT, name, value),
        Some(_) => false,
        None => put_into(file, 0, OF_THE_FILE, name, value),
    }
}
