//! The examples of docs/LIBRARY.md, run: packs the sample, prints the first strings of its unit,
//! and adds the package to a new builder.
#![tactic(auto)]

mod find_string;
mod pack_again;
mod pack_bytes;

use crate::find_string::string_of_unit;
use crate::pack_again::units_packed_again;
use crate::pack_bytes::package_of;
use std::{fs, io};
use thorin::DwoId;

fn main(rt: HostRuntime) -> io::Result<()> {
    let object = fs::read(&rt, "hello.dwo")?;
    let package = match package_of(rt.alloc(), &[object.as_slice()]) {
        Ok(package) => package,
        Err(error) => return println!(rt; "error: {error}"),
    };
    println!(rt; "{} bytes", package.len())?;
    for number in 0..4 {
        match string_of_unit(&package, DwoId(0x084a58cc96339e44), number) {
            Ok(Some(text)) => println!(rt; "{number} {}", text.escape_ascii())?,
            Ok(None) => println!(rt; "{number} is past the strings")?,
            Err(error) => println!(rt; "error: {error}")?,
        }
    }
    match units_packed_again(rt.alloc(), &package) {
        Ok(count) => println!(rt; "{count} unit packed again"),
        Err(error) => println!(rt; "error: {error}"),
    }
}
