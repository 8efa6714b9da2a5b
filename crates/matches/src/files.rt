// Files of the folder that the program is run in.
use std::io::{ErrorKind, Read};
use std::rt::Files;
use std::{fs, io};

// The bytes of an open file: all of them, or as many as there is room for. A read of none finds the end of the file.
fn read_open(file: &mut impl Read, bytes: &mut [u8]) -> io::Result<usize> {
    let mut n: usize = 0;
    while n < bytes.len() {
        let more = file.read(&mut bytes[n..])?;
        if more == 0 {
            return Ok(n);
        }
        n += more;
    }
    Ok(n)
}

// The bytes of a file, put at the front of a buffer; a missing file counts as empty.
fn read_bytes(rt: &impl Files, path: &str, bytes: &mut [u8]) -> io::Result<usize> {
    match fs::open(rt, path) {
        Ok(mut file) => read_open(&mut file, bytes),
        Err(error) => {
            if error.kind() == ErrorKind::NotFound {
                return Ok(0);
            }
            Err(error)
        }
    }
}

// How many bytes of a file were put at the front of a buffer. Where it cannot be read, that is said on standard error,
// and none is answered.
pub fn read_file(rt: &(impl Files + Eprint), path: &str, bytes: &mut [u8]) -> Option<usize> {
    match read_bytes(rt, path, bytes) {
        Ok(n) => Some(n),
        Err(error) => {
            let _ = eprintln!(rt; "{path}: {error}");
            None
        }
    }
}
