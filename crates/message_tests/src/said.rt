// Words of worked messages, and the polynomials through them.
use polynomials::{PartWord, interpolate, word_at, words_of};

#[test]
fn words_of_a_message(rt: HostRuntime) {
    let message = [10, 1, 0];
    let mut words = [0; 5];
    words_of(&message, &mut words);
    assert_eq!(rt; words, [10, 11, 12, 13, 14]);
    assert_eq!(rt; word_at(&message, 4), 14);
    assert_eq!(rt; word_at(&[5, 1_073_741_823], 250), 2_147_483_527);
    assert_eq!(rt; word_at(&[], 3), 0);
}

// Through the words of all 251 parts, the highest part first; and not through a part twice, nor through fewer words than values.
#[test]
fn polynomials_through_words(rt: HostRuntime) {
    let message = [2_147_483_646; 251];
    let mut words = [PartWord { part: 0, value: 0 }; 251];
    for (word, part) in words.iter_mut().zip((0..251).rev()) {
        *word = PartWord {
            part,
            value: word_at(&message, usize::from(part)),
        };
    }
    let mut values = [0; 251];
    assert!(rt; interpolate(&words, &mut values) && values == message);
    words[7].part = 0;
    let mut values = [3; 251];
    assert!(rt; !interpolate(&words, &mut values) && values[0] == 3);
    let mut fewer = [5; 250];
    assert!(rt; !interpolate(&words, &mut fewer) && fewer[0] == 5);
}
