// Layer checks.
// Test vectors, one on each line: numbers as they are read, checksums as they are printed, and each model's readings at
// a count of 65,535.
#![tactic(auto)]

ghost use Rattle.std.specs.Prelude.{◌≤◌};

// Writes the first n bytes of buf, and ends the line.
fn line(rt: &HostRuntime, buf: &mut [u8], n: usize) {
    let p = base::put_byte(buf, n, b'\n');
    if p <= buf.len() {
        let _ = rt.write_all(base::part_to(buf, p));
    }
}

// Appends the number that s reads as, with k decimals.
fn put_read(buf: &mut [u8], at: usize, s: &[u8], k: usize) -> usize
    requires { k ≤ 6 }
{
    match figures::read_number(s, k) {
        Some(v) => prints::put_figure(buf, at, k, v),
        None => base::put_text(buf, at, b"none"),
    }
}

// A number as typed, and what it reads as with k decimals.
fn number(rt: &HostRuntime, s: &[u8], k: usize)
    requires { k ≤ 6 }
{
    let mut buf = [0u8; 64];
    let p = base::put_text(&mut buf, 0, s);
    let q = base::put_byte(&mut buf, p, b' ');
    let r = put_read(&mut buf, q, s, k);
    line(rt, &mut buf, r);
}

// Each of several numbers, with a space between two.
fn numbers(rt: &HostRuntime, texts: &[u8], k: usize)
    requires { k ≤ 6 }
{
    for text in texts.split(|b| *b == b' ') {
        number(rt, text, k);
    }
}

// A line with its checksum.
fn checksummed(rt: &HostRuntime, s: &[u8]) {
    let mut buf = [0u8; 64];
    let p = base::put_text(&mut buf, 0, s);
    let q = base::put_byte(&mut buf, p, b'$');
    let r = hexadecimal::put_hex(&mut buf, q, hexadecimal::checksum(s));
    line(rt, &mut buf, r);
}

// A model, and its volt and ampere readings at the highest count.
fn readings(rt: &HostRuntime, model: u8) {
    let mut buf = [0u8; 64];
    let p = prints::put_figure(&mut buf, 0, 0, u64::from(model));
    let q = base::put_byte(&mut buf, p, b' ');
    let r = prints::put_figure(&mut buf, q, 4, models::volt_reading(model, 65535));
    let t = base::put_byte(&mut buf, r, b' ');
    let u = prints::put_figure(&mut buf, t, 3, models::amp_reading(model, 65535));
    line(rt, &mut buf, u);
}

fn every_model(rt: &HostRuntime) {
    for m in 0..12 {
        readings(rt, m);
    }
}

fn forms(rt: &HostRuntime) {
    numbers(rt, b"12 012 12.0 012.00 786.42 .5 5. 999999999999", 4);
}

// To the nearest tick or mA, up and down, and ties to the even one, with up to 12 characters.
fn rounded(rt: &HostRuntime) {
    numbers(rt, b"5.00009 5.00001 5.00005 5.00015 6.30005 6.30015", 4);
    numbers(
        rt,
        b".00005 0.00005 .00015 .00025 .00005000001 .00014999999",
        4,
    );
    numbers(rt, b"4.0000500000 4.0000499999 4.0000500001", 4);
    numbers(rt, b"4.0001500000 4.0001499999 4.0001500001", 4);
    numbers(
        rt,
        b"1.9994 1.9985 1.9995 .0005 .0015 105.0005 .00050000001",
        3,
    );
    numbers(
        rt,
        b"100.00050000 100.00050001 100.00150000 100.00149999",
        3,
    );
}

// Nines that round up across a power of ten, and nines that do not.
fn nines(rt: &HostRuntime) {
    numbers(rt, b".99995 .99994999999 .99999999999 9.99995", 4);
    numbers(rt, b"99999.999999 999999.99999 9999999.9999", 4);
    numbers(rt, b"9.9995 99.999499999 9999999.9999", 3);
}

// Between two spaces stands the empty text.
fn malformed(rt: &HostRuntime) {
    numbers(rt, b". 1.2.3 0000000000012  -1 1e3 .0005000000x", 4);
}

fn sums(rt: &HostRuntime) {
    checksummed(rt, b"PV?");
    checksummed(rt, b"0.0000");
    checksummed(rt, b"STT?");
    checksummed(rt, b"STAT?");
}

fn main(rt: HostRuntime) {
    forms(&rt);
    rounded(&rt);
    nines(&rt);
    malformed(&rt);
    sums(&rt);
    every_model(&rt);
}
