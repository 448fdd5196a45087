use crate::laws;

#[test]
fn the_laws_hold() {
    laws::sound_is_orderly();
}
