//! Lines as a script has them, and what is read of each.

use script::{Fault, Reader, number, numbers};

#[test]
fn words_stand_apart(rt: HostRuntime) {
    let mut reader = Reader::new(b"  tick\t5#x 6");
    assert_eq!(rt; reader.next(), Some(b"tick".as_slice()));
    assert_eq!(rt; reader.next(), Some(b"5".as_slice()));
    assert_eq!(rt; reader.next(), None);
    assert_eq!(rt; reader.next(), None);
}

#[test]
fn a_line_is_gone_through(rt: HostRuntime) {
    let mut last = 0;
    for word in Reader::new(b"5 60 # 7") {
        last = word.len();
    }
    assert_eq!(rt; last, 2);
    assert_eq!(rt; Reader::new(b"5 60 # 7").count(), 2);
}

#[test]
fn numbers_are_digits(rt: HostRuntime) {
    assert_eq!(rt; number(b"007"), Some(7));
    assert_eq!(rt; number(b"18446744073709551615"), Some(u64::MAX));
    assert_eq!(rt; number(b"18446744073709551616"), Some(u64::MAX));
    assert_eq!(rt; number(b"-1"), None);
    assert_eq!(rt; number(b""), None);
}

#[test]
fn a_line_has_its_numbers(rt: HostRuntime) {
    assert_eq!(rt; numbers::<2>(&mut Reader::new(b" 5 60 \r")), Ok([5, 60]));
    assert_eq!(rt;
        numbers::<2>(&mut Reader::new(b"5 # 60")),
        Err(Fault::Missing { field: 1 })
    );
    assert_eq!(rt;
        numbers::<2>(&mut Reader::new(b"5 6x")),
        Err(Fault::NotNumber { field: 1 })
    );
    assert_eq!(rt;
        numbers::<2>(&mut Reader::new(b"5 6 7")),
        Err(Fault::Extra { field: 2 })
    );
}
