// Files in bytes, and what reading them comes to.
use records::{Fault, Kind, Reader, Refusal};
use std::test::Fail;

// Kind 1 stands twice, and only its first entry counts.
const KINDS: [Kind; 6] = [
    Kind {
        number: 1,
        fields: 3,
    },
    Kind {
        number: 2,
        fields: 16,
    },
    Kind {
        number: 5,
        fields: 20,
    },
    Kind {
        number: 8,
        fields: 1,
    },
    Kind {
        number: 10,
        fields: 0,
    },
    Kind {
        number: 1,
        fields: 16,
    },
];

// How many records a file has, or how many are read before it is refused, and how.
type Outcome = Result<usize, (usize, Refusal)>;

#[derive(Clone, Copy)]
struct Case<'a> {
    file: &'a [u8],
    comes_to: Outcome,
}

// Reading the file comes to this.
fn read<'a>(file: &'a [u8], comes_to: Outcome) -> Case<'a> {
    Case { file, comes_to }
}

fn stopped(records: usize, fault: Fault, place: usize) -> Outcome {
    Err((records, Refusal { fault, place }))
}

fn walk<'a>(file: &'a [u8], kinds: &'a [Kind]) -> Outcome {
    let mut reader = Reader::open(file, kinds).map_err(|refusal| (0, refusal))?;
    let mut records = 0;
    while let Some(_record) = reader.next().map_err(|refusal| (records, refusal))? {
        records += 1;
    }
    Ok(records)
}

#[test]
fn outcomes(rt: HostRuntime) {
    let cases = [
        read(&[], Ok(0)),
        // Cut short in its head, whatever the kind.
        read(&[10], stopped(0, Fault::CutShort, 0)),
        read(&[10, 0], stopped(0, Fault::CutShort, 0)),
        read(&[99, 0], stopped(0, Fault::CutShort, 0)),
        // A kind that is not of the file, with or without the bytes that its map asks for.
        read(&[99, 0, 0], stopped(0, Fault::UnknownKind, 0)),
        read(&[99, 255, 255], stopped(0, Fault::UnknownKind, 0)),
        read(&[0, 0, 0], stopped(0, Fault::UnknownKind, 0)),
        // Records that end where the file ends, and one that does not.
        read(&[10, 0, 0], Ok(1)),
        read(&[8, 0, 1, 0, 0, 0, 0, 0, 0, 0, 1], Ok(1)),
        read(
            &[8, 0, 1, 0, 0, 0, 0, 0, 0, 1],
            stopped(0, Fault::CutShort, 0),
        ),
        read(
            &[10, 0, 0, 1, 0, 1, 0, 0, 1],
            stopped(1, Fault::CutShort, 3),
        ),
        read(&[10, 0, 0, 10, 0, 0, 10], stopped(2, Fault::CutShort, 6)),
        // A bit beyond the fields counts in the length, so cut short comes first.
        read(&[1, 0, 8], stopped(0, Fault::CutShort, 0)),
        read(&[1, 0, 8, 0, 0, 0, 7], stopped(0, Fault::BitBeyond, 0)),
        read(
            &[10, 128, 0, 0, 0, 0, 0, 0, 0, 0, 1],
            stopped(0, Fault::BitBeyond, 0),
        ),
        read(&[5, 128, 0, 0, 0, 0, 7], Ok(1)),
        // A field of 0, after all other faults.
        read(&[1, 0, 1, 0, 0, 0, 0], stopped(0, Fault::ZeroField, 0)),
        read(
            &[1, 0, 3, 0, 0, 0, 1, 0, 0, 0, 0],
            stopped(0, Fault::ZeroField, 0),
        ),
        read(
            &[1, 0, 3, 0, 0, 0, 0, 0, 0, 0],
            stopped(0, Fault::CutShort, 0),
        ),
        read(
            &[1, 0, 9, 0, 0, 0, 0, 0, 0, 0, 7],
            stopped(0, Fault::BitBeyond, 0),
        ),
    ];
    for case in &cases {
        assert_eq!(rt; walk(case.file, &KINDS), case.comes_to);
    }
}

// The numbers that the faults are known by.
#[test]
fn numbers(rt: HostRuntime) {
    assert_eq!(rt; Fault::TooLong.number(), 1);
    assert_eq!(rt; Fault::CutShort.number(), 2);
    assert_eq!(rt; Fault::UnknownKind.number(), 3);
    assert_eq!(rt; Fault::BitBeyond.number(), 4);
    assert_eq!(rt; Fault::ZeroField.number(), 5);
}

#[test]
fn refusal_as_text(rt: HostRuntime) -> Result<(), Fail> {
    let refusal = Refusal {
        fault: Fault::BitBeyond,
        place: 12,
    };
    assert_eq!(rt; refusal.to_string(rt.alloc())?.as_str(), "4 at 12");
    Ok(())
}

#[test]
fn longest_file(rt: HostRuntime) {
    let kinds = [Kind {
        number: 0,
        fields: 0,
    }];
    let zeros = [0u8; 65_536];
    assert_eq!(rt; walk(&zeros[0..65_535], &kinds), Ok(21_845));
    assert_eq!(rt; walk(&zeros, &kinds), stopped(0, Fault::TooLong, 0));
}

// A record with all sixteen fields: 1 to 16.
const ALL: [u8; 67] = [
    2, 255, 255, 0, 0, 0, 1, 0, 0, 0, 2, 0, 0, 0, 3, 0, 0, 0, 4, 0, 0, 0, 5, 0, 0, 0, 6, 0, 0, 0,
    7, 0, 0, 0, 8, 0, 0, 0, 9, 0, 0, 0, 10, 0, 0, 0, 11, 0, 0, 0, 12, 0, 0, 0, 13, 0, 0, 0, 14, 0,
    0, 0, 15, 0, 0, 0, 16,
];

// A field of the first record.
fn field<'a>(file: &'a [u8], bit: u8) -> Result<i64, Fail> {
    let mut reader = Reader::open(file, &KINDS)?;
    let Some(record) = reader.next()? else {
        return Err(Fail::new("no record"));
    };
    Ok(record.field(bit))
}

#[test]
fn fields(rt: HostRuntime) -> Result<(), Fail> {
    let signs = [1, 0, 5, 255, 255, 255, 255, 128, 0, 0, 0];
    assert_eq!(rt; field(&signs, 0)?, -1);
    assert_eq!(rt; field(&signs, 1)?, 0);
    assert_eq!(rt; field(&signs, 2)?, -2_147_483_648);
    assert_eq!(rt;
        field(&[8, 0, 1, 255, 255, 255, 255, 255, 255, 255, 254], 0)?,
        -2
    );
    for bit in 0..16 {
        assert_eq!(rt; field(&ALL, bit)?, i64::from(bit) + 1);
    }
    assert_eq!(rt; field(&ALL, 16)?, 0);
    assert_eq!(rt; field(&ALL, 255)?, 0);
    Ok(())
}
