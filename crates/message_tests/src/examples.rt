//! The examples in the documentation of `dap_frame` and `dap_msg`.

use dap_frame::{Decoder, encode};
use dap_msg::{Body, Dialect, Outgoing, read, write};

#[test]
fn frames_a_content(rt: HostRuntime) {
    let alloc = rt.alloc();
    let mut stream = Vec::new(alloc);
    encode(b"{}".as_slice(), &mut stream).expect(&rt, "memory");
    assert_eq!(&rt;
        stream.as_slice(),
        b"Content-Length: 2\r\n\r\n{}".as_slice()
    );
    let mut decoder = Decoder::new(alloc);
    decoder.feed(stream.as_slice()).expect(&rt, "memory");
    let content = decoder
        .next_content()
        .expect(&rt, "no fault")
        .expect(&rt, "a content");
    assert_eq!(&rt; content.as_slice(), b"{}".as_slice());
}

#[test]
fn answers_a_request(rt: HostRuntime) {
    let alloc = rt.alloc();
    let content = br#"{"seq":3,"type":"request","command":"threads"}"#;
    let request = read(alloc, Dialect::Codes, content.as_slice())
        .expect(&rt, "memory")
        .expect(&rt, "a request");
    let answer = Outgoing::Answer {
        request_seq: request.seq,
        command: request.body.into_name(),
        result: Ok(Body::Threads),
    };
    let mut text = Vec::new(alloc);
    write(&answer, 1, &mut text).expect(&rt, "memory");
    let expected =
        br#"{"body":{"threads":[{"id":1,"name":"main"}]},"command":"threads","request_seq":3,"seq":1,"success":true,"type":"response"}"#;
    assert_eq!(&rt; text.as_slice(), expected.as_slice());
}
