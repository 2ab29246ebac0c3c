// Both stacks of dues: what is written of a formula is the same; and a number that no text of 16,384 bytes can ask for is kept on the one whose dues hold any.
use crate::{formula, formula_short};
use fof_pass::{Due, Pen, Sort, entry, push};

// Nothing is written yet.
fn start() -> Pen {
    Pen {
        at: 0,
        depth: 0,
        deep: false,
    }
}

#[test]
fn a_large_number_is_kept(rt: HostRuntime) {
    let mut stack = [Due::Nothing; 2];
    let d = Due::More {
        conj: true,
        sort: Sort::Goal,
        number: 17000,
    };
    assert_eq!(rt; push(&mut stack, 0, Due::Nothing), 0);
    assert_eq!(rt; push(&mut stack, 0, d), 1);
    let held = entry(&stack, 0, Due::Nothing);
    assert!(rt; matches!(held, Due::More { number: 17000, .. }));
}

#[test]
fn both_stacks_write_the_same(rt: HostRuntime) {
    let text = b"( p & q ) => $true";
    let written = b"(3:imp(3:and(4:atom1:p)(4:atom1:q))(3:top))";
    let mut names = [0usize; 16385];
    let mut wide = [Due::Nothing; 98400];
    let mut buf = [0u8; 100];
    let n = formula(
        text,
        &mut wide,
        &mut names,
        &mut buf,
        start(),
        0,
        Sort::Goal,
    );
    assert!(rt; n.ok);
    assert_eq!(rt; n.pen.at, 43);
    assert!(rt; buf.starts_with(written));
    let mut short = [Due::Nothing; 98400];
    let mut other = [0u8; 100];
    let n = formula_short(
        text,
        &mut short,
        &mut names,
        &mut other,
        start(),
        0,
        Sort::Goal,
    );
    assert!(rt; n.ok);
    assert_eq!(rt; n.pen.at, 43);
    assert_eq!(rt; other, buf);
}

// Seventeen thousand conjunctions, read to the end.
#[test]
fn a_long_chain_is_read(rt: HostRuntime) {
    let mut text = [b'p'; 34001];
    for k in 0..17000usize {
        text[2 * k + 1] = b'&';
    }
    let mut names = [0usize; 16385];
    let mut stack = [Due::Nothing; 98400];
    let mut buf = [0u8; 1];
    let n = formula(
        &text,
        &mut stack,
        &mut names,
        &mut buf,
        start(),
        0,
        Sort::Goal,
    );
    assert!(rt; n.ok);
    assert_eq!(rt; n.at, 34001);
}
