// Vendor arrays, read and written.
use crate::same::same;
use std::alloc::Global;
use std::process::Abort;
use tplg_model::{NumberTuple, TextTuple, TokenArray};
use tplg_tokens::{TokenFault, read_arrays, write_arrays};

/// One array of words: the token 100 with the value 768.
const SIZE_768: [u8; 20] = [
    20, 0, 0, 0, 4, 0, 0, 0, 1, 0, 0, 0, 100, 0, 0, 0, 0, 3, 0, 0,
];

/// One array of texts: the token 402 with the text `s16le`, and a byte after its 0.
fn format_s16le() -> [u8; 60] {
    let mut bytes = [0; 60];
    bytes[..12].copy_from_slice(&[60, 0, 0, 0, 1, 0, 0, 0, 1, 0, 0, 0]);
    bytes[12..16].copy_from_slice(&[0x92, 1, 0, 0]);
    bytes[16..21].copy_from_slice(b"s16le");
    bytes[22] = 7;
    bytes
}

// The kind and the items of an only array of numbers.
fn only_numbers(arrays: &[TokenArray]) -> Option<(u32, &[NumberTuple])> {
    match arrays {
        [TokenArray::Number(numbers)] => Some((numbers.kind(), numbers.items())),
        _ => None,
    }
}

// The only text of an only array.
fn only_text(arrays: &[TokenArray]) -> Option<&TextTuple> {
    match arrays {
        [TokenArray::Text(texts)] => match texts.items() {
            [text] => Some(text),
            _ => None,
        },
        _ => None,
    }
}

#[test]
fn an_array_of_a_number_is_read(rt: HostRuntime) {
    let arrays = read_arrays(rt.alloc(), &SIZE_768).expect(&rt, "it is an array");
    let want = [NumberTuple {
        token: 100,
        value: 768,
    }];
    let numbers = only_numbers(arrays.items());
    same(&rt, &"the array", &numbers, &Some((4, want.as_slice())));
}

#[test]
fn an_array_of_a_text_is_read(rt: HostRuntime) {
    let bytes = format_s16le();
    let arrays = read_arrays(rt.alloc(), &bytes).expect(&rt, "it is an array");
    let text = only_text(arrays.items()).expect(&rt, "it is a text");
    same(&rt, &"the token", &text.token, &402);
    same(
        &rt,
        &"the text",
        &&text.bytes[..7],
        &b"s16le\0\x07".as_slice(),
    );
}

// Both arrays, one after the other.
fn both() -> [u8; 80] {
    let mut bytes = [0; 80];
    bytes[..20].copy_from_slice(&SIZE_768);
    bytes[20..].copy_from_slice(&format_s16le());
    bytes
}

/// Two bytes, and after them the arrays that bytes are, written again.
fn written_again(rt: &impl Abort, alloc: Global, bytes: &[u8]) -> Vec<u8> {
    let arrays = read_arrays(alloc, bytes).expect(rt, "they are arrays");
    let mut out = Vec::from_slice(alloc, &[1, 2]).expect(rt, "there is memory");
    write_arrays(arrays.items(), &mut out).expect(rt, "there is memory");
    out
}

#[test]
fn arrays_are_written_as_they_were_read(rt: HostRuntime) {
    let bytes = both();
    let out = written_again(&rt, rt.alloc(), &bytes);
    let front = Some([1, 2].as_slice());
    same(&rt, &"the front", &out.get(..2), &front);
    let arrays = Some(bytes.as_slice());
    same(&rt, &"the arrays", &out.get(2..), &arrays);
}

fn fault_of(alloc: Global, bytes: &[u8]) -> Option<TokenFault> {
    read_arrays(alloc, bytes).err()
}

#[test]
fn faults_are_told_in_their_order(rt: HostRuntime) {
    let mut bytes = [0; 32];
    bytes[..20].copy_from_slice(&SIZE_768);
    bytes[20] = 1;
    bytes[24] = 6;
    let alloc = rt.alloc();
    let short = Some(TokenFault::Short(0));
    same(&rt, &"a cut", &fault_of(alloc, &bytes[..19]), &short);
    let short = Some(TokenFault::Short(20));
    same(&rt, &31, &fault_of(alloc, &bytes[..31]), &short);
    let kind = Some(TokenFault::Kind(20, 6));
    same(&rt, &32, &fault_of(alloc, &bytes), &kind);
    bytes[24] = 5;
    let size = Some(TokenFault::Size(20));
    same(&rt, &24, &fault_of(alloc, &bytes), &size);
}
