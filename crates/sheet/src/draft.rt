use short_list::ShortList;

mod methods;

// Bytes that are put together before they are handed over: the longest sheet that is written has 81, the longest report 48.
#[derive(Clone, Copy)]
pub(crate) struct Draft {
    bytes: ShortList<u8, 96>,
}
