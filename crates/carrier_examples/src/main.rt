// The carrier's answers to RFC 9804's own examples, document 01's cases 11 and 12, and bad input of every kind; one line for each.
#![tactic(auto)]

use sexp::Carrier;

// What is judged, and the answer for nesting of at most 64. What cannot be printed is left out.
fn told(out: &impl Print, name: &[u8], file: &[u8]) {
    let _ = out.write_all(name);
    let _ = match sexp::canonical(file, 64) {
        Carrier::Sound => println!(out; "   sound"),
        Carrier::Fault(at) => println!(out; "   fault {at}"),
        Carrier::Deep(at) => println!(out; "   deep {at}"),
    };
}

// A file that shows itself.
fn example(out: &impl Print, file: &[u8]) {
    told(out, file, file);
}

fn of_the_rfc(out: &impl Print) {
    example(out, b"(6:issuer3:bob)");
    example(out, b"(4:icon[12:image/bitmap]9:xxxxxxxxx)");
    example(out, b"(7:subject(3:ref5:alice6:mother))");
    example(out, b"7:subject");
    example(out, b"12:hello world!");
    example(out, b"0:");
    example(out, b"3:abc");
    example(out, b"()");
    example(out, b"(1:a1:b1:c)");
    example(out, b"4:::::");
    example(out, b"10:abcdefghij");
    example(out, b"(11:certificate(6:issuer3:bob)(7:subject5:alice))");
}

fn of_the_paper(out: &impl Print) {
    told(out, b"no bytes", b"");
    example(out, b"01:a");
    example(out, b"1:a");
    example(
        out,
        b"(5:rules(3:all(3:imp(4:atom4:shut(1:v1:0))(4:atom3:dry(1:v1:0)))))",
    );
    example(out, b"(3:imp(4:atom4:shut(1:f2:p7))(4:atom3:dry(1:f2:p7)))");
    example(out, b"(5:terms(1:f2:p7))");
    example(out, b"(3:imp(3:use1:0(1:0)(3:use1:1())))");
}

fn bad(out: &impl Print) {
    example(out, b"00:");
    example(out, b"9:ab");
    example(out, b"3abc");
    example(out, b":abc");
    example(out, b"-1:a");
    example(out, b")");
    example(out, b"())");
    example(out, b"()x");
    example(out, b"()()");
    example(out, b"1:a1:b");
    example(out, b"(1:a");
    example(out, b"(1:a 1:b)");
    example(out, b"[1:a]1:b");
    example(out, b"[1:a](1:b)");
    example(out, b"[1:a");
    example(out, b"1:[");
    told(out, b"a newline at the end", b"()\n");
    told(out, b"a space in front", b" ()");
    told(out, b"a zero byte", b"\0");
    told(out, b"a string of zero bytes", b"(3:\0\0\0)");
    told(out, b"a zero byte after the end", b"()\0");
    example(out, b"18446744073709551616:");
    example(out, b"18446744073709551617:a");
}

// Lists in lists.
fn nested(out: &impl Print) {
    told(
        out,
        b"nested 64 deep",
        b"(((((((((((((((((((((((((((((((((((((((((((((((((((((((((((((((())))))))))))))))))))))))))))))))))))))))))))))))))))))))))))))))",
    );
    told(
        out,
        b"nested 64 deep, one parenthesis short",
        b"(((((((((((((((((((((((((((((((((((((((((((((((((((((((((((((((()))))))))))))))))))))))))))))))))))))))))))))))))))))))))))))))",
    );
    told(
        out,
        b"nested 64 deep, one parenthesis over",
        b"(((((((((((((((((((((((((((((((((((((((((((((((((((((((((((((((()))))))))))))))))))))))))))))))))))))))))))))))))))))))))))))))))",
    );
    told(
        out,
        b"nested 65 deep",
        b"((((((((((((((((((((((((((((((((((((((((((((((((((((((((((((((((()))))))))))))))))))))))))))))))))))))))))))))))))))))))))))))))))",
    );
    told(
        out,
        b"nested 65 deep, one parenthesis short",
        b"((((((((((((((((((((((((((((((((((((((((((((((((((((((((((((((((())))))))))))))))))))))))))))))))))))))))))))))))))))))))))))))))",
    );
    told(
        out,
        b"nested 65 deep, one parenthesis over",
        b"((((((((((((((((((((((((((((((((((((((((((((((((((((((((((((((((())))))))))))))))))))))))))))))))))))))))))))))))))))))))))))))))))",
    );
}

fn long(out: &impl Print) {
    let digits = [b'9'; 4000];
    told(out, b"4000 digits", &digits);
    let lists = [b'('; 16384];
    told(out, b"16384 parentheses", &lists);
    let mut s = [b'a'; 40006];
    s[..6].copy_from_slice(b"40000:");
    told(out, b"a string of 40000 octets", &s);
    told(
        out,
        b"a string of 40000 octets, the last one missing",
        &s[..40005],
    );
}

fn main(rt: HostRuntime) {
    of_the_rfc(&rt);
    of_the_paper(&rt);
    bad(&rt);
    nested(&rt);
    long(&rt);
}
