// Tests of tuple_trace: values, tuples, rows and small types.
use crate::tests::check_text;
use std::alloc::Global;
use std::process::Abort;
use tuple_trace::{
    Births, Bytes, FeedRows, Fields, Gate, Items, NoMemory, OpenGate, Reserved, Row, Rows, Tuple,
    Txt, Value, Visit, Visits, Word, digits_up_to, number_in, spread, text_in,
};

#[test]
fn spread_values(rt: HostRuntime) {
    let cases: [(&[u8], u32, u32); 4] = [
        (b"ab", 8, 1),
        (b"k1", 8, 6),
        (b"", 3, 0),
        // 2^32 is passed on the way: without the reduction the answer is 3.
        (b"zzzzzzz", 7, 4),
    ];
    for (key, workers, want) in cases {
        assert!(rt; workers >= 1 && workers <= 8);
        assert_eq!(rt; spread(key, workers), want);
    }
}

#[test]
fn numbers_in_digits(rt: HostRuntime) {
    let cases: [(&[u8], u64, Option<u64>); 9] = [
        (b"0", 0, Some(0)),
        (b"007", 7, Some(7)),
        (b"8", 7, None),
        (b"", 7, None),
        (b"+1", 7, None),
        (b"1 ", 7, None),
        (b"18446744073709551615", u64::MAX, Some(u64::MAX)),
        (b"18446744073709551616", u64::MAX, None),
        (b"00000000000000000000000000000001", 1, Some(1)),
    ];
    for (text, limit, want) in cases {
        assert_eq!(rt; digits_up_to(text, limit), want);
    }
}

const VISIT: Visit = Visit {
    node: 3,
    worker: 1,
    last: 2,
};

fn ann(alloc: Global) -> Result<Tuple, NoMemory> {
    let mut fields = Items::new(alloc);
    fields.push(Value::Text(Txt::from_slice(alloc, b"ann")?))?;
    fields.push(Value::Num(-5))?;
    Ok(Tuple {
        row: 7,
        birth: Births::from_slice(alloc, &[4])?,
        issued: 1,
        fields: Fields::shared(fields)?,
        trace: Visits::new(alloc),
    })
}

fn is_child(child: &Tuple) -> bool {
    child.birth.as_slice() == [4, 2].as_slice()
        && child.trace.get(0).copied() == Some(VISIT)
        && child.trace.len() == 1
        && (child.row, child.issued, child.fields.len()) == (7, 1, 2)
}

fn is_copy(copy: &Tuple) -> bool {
    copy.birth.as_slice() == [4].as_slice()
        && copy.trace.len() == 0
        && matches!(copy.fields.as_slice(), [Value::Text(name), Value::Num(-5)]
            if name.as_slice() == b"ann".as_slice())
}

fn child_is_well(alloc: Global) -> Result<bool, NoMemory> {
    Ok(is_child(&ann(alloc)?.child(2)?.visited(VISIT)?))
}

fn sizes_of(tuple: &Tuple) -> (u64, u64, usize, usize) {
    (
        tuple.issued,
        tuple.row,
        tuple.birth.len(),
        tuple.fields.len(),
    )
}

// The request, the row, and how many births and fields a tuple has that is put under request 3.
fn under(alloc: Global) -> Result<(u64, u64, usize, usize), NoMemory> {
    Ok(sizes_of(&ann(alloc)?.under(3)?))
}

fn first_visit(alloc: Global) -> Result<Option<Visit>, NoMemory> {
    Ok(ann(alloc)?.visiting(VISIT)?.trace.get(0).copied())
}

fn copy_is_well(alloc: Global) -> Result<bool, NoMemory> {
    Ok(is_copy(&ann(alloc)?.copy()?))
}

#[test]
fn tuples_grow_in_their_copies(rt: HostRuntime) {
    assert!(rt; matches!(child_is_well(rt.alloc()), Ok(true)));
    assert!(rt; matches!(copy_is_well(rt.alloc()), Ok(true)));
    assert_eq!(rt; under(rt.alloc()), Ok((3, 7, 1, 2)));
    assert_eq!(rt; first_visit(rt.alloc()), Ok(Some(VISIT)));
}

// Five births lie in the value, and six in memory of their own.
fn births_are_well(alloc: Global) -> Result<bool, NoMemory> {
    let five = Births::from_slice(alloc, &[0, 1, 2, 3])?.with(alloc, 4)?;
    let seven = Births::from_slice(alloc, &[0, 1, 2, 3, 4, 5])?.with(alloc, 6)?;
    let six = five.with(alloc, 5)?;
    Ok(
        five.as_slice() == [0, 1, 2, 3, 4].as_slice()
            && six.as_slice() == [0, 1, 2, 3, 4, 5].as_slice()
            && (six.len(), seven.len()) == (6, 7)
            && seven.as_slice().last() == Some(&6),
    )
}

#[test]
fn births_grow(rt: HostRuntime) {
    assert!(rt; matches!(births_are_well(rt.alloc()), Ok(true)));
}

// The second number of a tuple, where its first fields are a text and that number.
fn second_of(tuple: &Tuple) -> Option<i64> {
    match tuple.fields.as_slice() {
        [Value::Text(_), Value::Num(number)] => Some(*number),
        _ => None,
    }
}

// Writes a number into the second field, if there is one.
fn write_second(tuple: &mut Tuple, number: i64) -> Result<(), NoMemory> {
    if tuple.fields.len() > 1 {
        tuple.write(1, Value::Num(number))?;
    }
    Ok(())
}

// The second number of a copy after each of two writes, and that of the tuple.
fn written(alloc: Global) -> Result<[Option<i64>; 3], NoMemory> {
    let ann = ann(alloc)?;
    let mut copy = ann.copy()?;
    write_second(&mut copy, 8)?;
    let once = second_of(&copy);
    write_second(&mut copy, 9)?;
    Ok([once, second_of(&copy), second_of(&ann)])
}

#[test]
fn a_write_leaves_the_other_copies(rt: HostRuntime) {
    assert_eq!(rt; written(rt.alloc()), Ok([Some(8), Some(9), Some(-5)]));
}

fn kept_rows(alloc: Global) -> Result<usize, NoMemory> {
    let mut rows = Rows::new(alloc);
    let tuple = Tuple {
        row: 1,
        birth: Births::new(alloc),
        issued: 0,
        fields: Fields::new(alloc),
        trace: Visits::new(alloc),
    };
    rows.push(Row { source: 0, tuple })?;
    Ok(rows.as_slice().len().min(rows.len()))
}

#[test]
fn rows_are_kept_in_order(rt: HostRuntime) {
    assert_eq!(rt; kept_rows(rt.alloc()), Ok(1));
}

// The number of the row that is kept at a place.
fn number_at(fed: &FeedRows<'_>, place: usize) -> Option<u64> {
    Some(fed.kept(place)?.tuple.row)
}

// The numbers of the rows at four places, where the third row stands behind two blank ones.
fn third_behind_two(alloc: Global) -> [Option<u64>; 4] {
    let tuple = Tuple {
        row: 3,
        birth: Births::new(alloc),
        issued: 0,
        fields: Fields::new(alloc),
        trace: Visits::new(alloc),
    };
    let rows = [Row { source: 0, tuple }];
    let fed = FeedRows::behind(&rows, 2, 0);
    if fed.len() != 3 {
        return [None; 4];
    }
    [
        number_at(&fed, 0),
        number_at(&fed, 1),
        number_at(&fed, 2),
        number_at(&fed, 3),
    ]
}

#[test]
fn rows_behind_blank_ones_are_numbered_on(rt: HostRuntime) {
    assert_eq!(rt; third_behind_two(rt.alloc()), [None, None, Some(3), None]);
}

fn bytes_are_well(alloc: Global) -> Result<bool, NoMemory> {
    let mut bytes = Bytes::new(alloc);
    let was_empty = bytes.is_empty();
    bytes.extend_from_slice(b"fl")?;
    bytes.push(b'y')?;
    if bytes.len() != 3 {
        return Ok(false);
    }
    bytes.set(2, b'a');
    bytes.push(b'g')?;
    bytes.truncate(3);
    Ok(was_empty && bytes.into_vec().as_slice() == b"fla".as_slice())
}

// The digits of a list, the first one first: by its iterator, over a reference, and given up.
fn digits_in_order(items: Items<u8>) -> [u32; 3] {
    let mut read = [0u32; 3];
    for digit in items.iter() {
        read[0] = read[0].wrapping_mul(10).wrapping_add((*digit).into());
    }
    for digit in &items {
        read[1] = read[1].wrapping_mul(10).wrapping_add((*digit).into());
    }
    for digit in items {
        read[2] = read[2].wrapping_mul(10).wrapping_add(digit.into());
    }
    read
}

fn items_are_well(alloc: Global) -> bool {
    match vec![in alloc; 1u8, 2] {
        Ok(items) => {
            let items = Items::from_vec(items);
            items.as_slice() == [1, 2].as_slice() && digits_in_order(items) == [12, 12, 12]
        }
        Err(_) => false,
    }
}

fn reserved_is_well(alloc: Global) -> Result<bool, NoMemory> {
    let mut list = Reserved::new(alloc);
    list.reserve(2)?;
    list.push_reserved(3u8);
    list.push_reserved(4);
    Ok(list.len() == 2 && list.as_slice()[1] == 4 && list.into_items().len() == 2)
}

// A text of 3 bytes lies in the value, one of 14 too, and one of 15 elsewhere.
fn check_copy(rt: &(impl AllocGlobal + Abort), text: &str) {
    let copy = copied(rt.alloc(), text.as_bytes()).expect(rt, "memory");
    check_text(rt, copy.as_slice(), text);
}

fn copied(alloc: Global, text: &[u8]) -> Result<Txt, NoMemory> {
    Txt::from_slice(alloc, text)?.copy()
}

fn check_word(rt: &(impl AllocGlobal + Abort)) {
    let copy = copied_word(rt.alloc(), "run").expect(rt, "memory");
    check_text(rt, copy.as_str().as_bytes(), "run");
}

fn copied_word(alloc: Global, text: &str) -> Result<Word, NoMemory> {
    Word::from_string(text.to_string(alloc)?).copy()
}

#[test]
fn small_types_hold_what_they_are_given(rt: HostRuntime) {
    assert!(rt; matches!(bytes_are_well(rt.alloc()), Ok(true)));
    assert!(rt; items_are_well(rt.alloc()));
    for text in ["a b", "fourteen bytes", "fifteen  bytes!"] {
        check_copy(&rt, text);
    }
    assert!(rt; matches!(reserved_is_well(rt.alloc()), Ok(true)));
    check_word(&rt);
    check_text(&rt, Txt::new(rt.alloc()).as_slice(), "");
    OpenGate.pass(0, 0, 0);
    OpenGate.issued(1);
}

// What a text is read as.
fn check_read_text(rt: &(impl AllocGlobal + Abort)) {
    let text = Value::Text(Txt::from_slice(rt.alloc(), b"ann").expect(rt, "memory"));
    check_text(rt, text_in(Some(&text)), "ann");
    assert_eq!(rt; number_in(Some(&text)), 0);
}

// What a number is read as, and how long it is as a text.
fn read_number() -> (i64, usize) {
    let number = Value::Num(-5);
    (number_in(Some(&number)), text_in(Some(&number)).len())
}

#[test]
fn fields_are_read_by_what_is_asked(rt: HostRuntime) {
    check_read_text(&rt);
    assert_eq!(rt; read_number(), (-5, 0));
    assert_eq!(rt; (number_in(None), text_in(None).len()), (0, 0));
}
