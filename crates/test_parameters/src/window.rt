// The spare of a window.
use model::Parameters;
use test_support::show;
use test_support::text::MAX_NUMBERS;

// The numbers are the parameters, and the start and the end of the window.
pub(crate) fn spare(levels: &[u8], jobs: &[u8], values: [u32; MAX_NUMBERS]) {
    let parameters = Parameters {
        highest: values[0],
        free: values[1],
        margin: values[2],
    };
    match spare::spare(levels, jobs, parameters, values[3], values[4]) {
        Ok(spare) => {
            show::words(b" spare");
            show::signed(spare);
        }
        Err(own) => show::refused(own),
    }
}
