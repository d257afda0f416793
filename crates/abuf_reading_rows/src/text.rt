// Lines, statements and names: each call once with ample memory, on what readers meet.
use abuf_text::{Lines, Names, Statement, rest};

#[test]
fn last_line_needs_no_feed(rt: HostRuntime) {
    let mut lines = Lines::new(b"v 1\r\n\n\xff\0");
    assert!(rt; lines.next() == Some(b"v 1\r".as_slice()));
    assert!(rt; lines.next() == Some(b"".as_slice()));
    assert!(rt; lines.next() == Some(b"\xff\0".as_slice()));
    assert!(rt; lines.next() == None);
}

#[test]
fn comment_ends_the_arguments(rt: HostRuntime) {
    let mut tokens = Statement::new(b" \tf 1#2\t3\r #4 5");
    assert!(rt; tokens.next() == Some(b"f".as_slice()));
    assert!(rt; tokens.clone().next() == Some(b"1#2".as_slice()));
    assert!(rt; tokens.next() == Some(b"1#2".as_slice()));
    assert!(rt; tokens.next() == Some(b"3".as_slice()));
    assert!(rt; tokens.next() == None);
    assert!(rt; tokens.next() == None);
    assert!(rt; Statement::new(b"#f 1").next() == None);
}

#[test]
fn a_token_is_passed_by_its_length(rt: HostRuntime) {
    let text = Statement::new(b" \tab 1 ").text();
    assert!(rt; text == b"ab 1 ".as_slice());
    match Statement::behind(text, 2) {
        Some(mut tokens) => assert!(rt; tokens.next() == Some(b"1".as_slice())),
        None => assert!(rt; false),
    }
    assert!(rt; Statement::behind(text, 1).is_none());
    assert!(rt; Statement::behind(b"ab", 2).is_some());
}

#[test]
fn rest_is_one_name(rt: HostRuntime) {
    assert!(rt; rest(b" usemtl\t dark  red # two\t\r") == b"dark  red # two".as_slice());
    assert!(rt; rest(b"usemtl \t") == b"".as_slice());
}

#[test]
fn names_keep_their_places(rt: HostRuntime) {
    let alloc = rt.alloc();
    let mut names = Names::new(alloc);
    assert!(rt; names.find(b"red") == None);
    assert!(rt; names.push(alloc, b"red").is_ok());
    assert!(rt; names.find(b"green") == None);
    assert!(rt; names.push(alloc, b"green").is_ok());
    match names.try_clone(alloc) {
        Ok(copy) => {
            assert!(rt; copy.find(b"green") == Some(1));
            assert!(rt; copy.len() == 2);
            let list = copy.into_list();
            assert!(rt; list.as_slice()[0].as_slice() == b"red".as_slice());
        }
        Err(_) => assert!(rt; false),
    }
}
