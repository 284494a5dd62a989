//! Runs a table of command lines, bad input among them, and prints each text and status.

#![tactic(auto)]

use commands::Failure;
use dispatch::run;

const LINES: [&str; 47] = [
    "",
    "help",
    "help me",
    "install",
    "token",
    "token key.raw",
    "token key.raw small.image",
    "token key.hex small.image",
    "token upper.hex big.image",
    "token --cmac cmac.raw small.image",
    "token --cmac cmac.hex big.image",
    "token none.raw small.image",
    "token key.raw none.image",
    "token short.raw small.image",
    "token odd.hex small.image",
    "token bad.hex small.image",
    "token --cmac key.hex small.image",
    "token key.raw one.image",
    "token key.raw below.image",
    "token key.raw unlike.image",
    "verify key.raw 7 0102030405060708 9dae92daa3a9332d54e03e493755e9c3bd4aad6133e700716e10a2dcd3cc0e19",
    "verify key.hex 007 0102030405060708 9DAE92DAA3A9332D54E03E493755E9C3BD4AAD6133E700716E10A2DCD3CC0E19",
    "verify --cmac cmac.raw 7 0102030405060708 a6abc5d287a6cccdde0ef2dddf9c6bfa",
    "verify key.raw 8 0102030405060708 9dae92daa3a9332d54e03e493755e9c3bd4aad6133e700716e10a2dcd3cc0e19",
    "verify key.raw 7 0802030405060701 9dae92daa3a9332d54e03e493755e9c3bd4aad6133e700716e10a2dcd3cc0e19",
    "verify key.raw 7 0102030405060708 9dae92daa3a9332d54e03e493755e9c3bd4aad6133e700716e10a2dcd3cc0e00",
    "verify key.raw 7 0102030405060708 9dae92daa3a9332d54e03e493755e9c3bd4aad6133e700716e10a2dcd3cc0e",
    "verify key.raw 7 0102030405060708 a6abc5d287a6cccdde0ef2dddf9c6bfa",
    "verify --cmac cmac.raw 7 0102030405060708 9dae92daa3a9332d54e03e493755e9c3bd4aad6133e700716e10a2dcd3cc0e19",
    "verify key.raw 65536 0102030405060708 9dae92daa3a9332d54e03e493755e9c3bd4aad6133e700716e10a2dcd3cc0e19",
    "verify key.raw 7 01020304 9dae92daa3a9332d54e03e493755e9c3bd4aad6133e700716e10a2dcd3cc0e19",
    "verify key.raw 7 0102030405060708 xy",
    "verify short.raw 7 0102030405060708 9dae92daa3a9332d54e03e493755e9c3bd4aad6133e700716e10a2dcd3cc0e19",
    "verify key.raw 7",
    "image small.image",
    "image big.image 6",
    "image big.image 110",
    "image big.image 111",
    "image unlike.image",
    "image small.image 3",
    "image small.image 112",
    "image --cmac small.image",
    "watch bus.trace 4 46",
    "watch bus.trace",
    "watch bus.trace 4 45",
    "watch bad.trace",
    "watch none.trace",
];

fn main(rt: HostRuntime) -> anyhow::Result<()> {
    for line in LINES {
        let mut words = Vec::new(rt.alloc());
        for word in line.split_whitespace() {
            words.push(String::from_str(rt.alloc(), word)?)?;
        }
        let (text, status) = match run(&rt, words.as_slice()) {
            Ok(text) => (text, 0),
            Err(Failure::Cause(text)) => (text, 1),
            Err(Failure::Memory(e)) => return Err(e.into()),
        };
        println!(rt; "$ changeover {line}")?;
        print!(rt; "{text}")?;
        println!(rt; "status {status}\n")?;
    }
    Ok(())
}
