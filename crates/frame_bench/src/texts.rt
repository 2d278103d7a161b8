//! The same frame as JSON.

use std::alloc::Global;

/// Four items: the two texts stand between the three parts.
const ITEMS: [&str; 3] = [
    r#"{"took":{"from":"c0","to":["Work","w1"],"raise":"go","value":""#,
    r#"","n":2048}},{"ran":[["Work","w1"],["Pot","p0"],2048]},{"done":[["Work","w1"],2048,{"done":""#,
    r#""}]},{"fired":[["Work","w1"],2048,2048]}"#,
];

fn push_items(text: &mut String, long: &str) -> bool {
    text.push_str(ITEMS[0]).is_ok()
        && text.push_str(long).is_ok()
        && text.push_str(ITEMS[1]).is_ok()
        && text.push_str(long).is_ok()
        && text.push_str(ITEMS[2]).is_ok()
}

fn push_entry(text: &mut String, long: &str) -> bool {
    let mut before = r#"{"position":32,"incarnation":1,"items":["#;
    for _ in 0..16u32 {
        if text.push_str(before).is_err() || !push_items(text, long) {
            return false;
        }
        before = ",";
    }
    text.push_str("]}").is_ok()
}

fn push_frame(text: &mut String, long: &str) -> bool {
    let mut before = "[";
    for _ in 0..64u32 {
        if text.push_str(before).is_err() || !push_entry(text, long) {
            return false;
        }
        before = ",";
    }
    text.push(']').is_ok()
}

/// The frame, with this text wherever one stands, if there is memory for it.
pub fn make_json(alloc: Global, long: &str) -> Option<String> {
    let mut text = String::new(alloc);
    if push_frame(&mut text, long) {
        Some(text)
    } else {
        None
    }
}
