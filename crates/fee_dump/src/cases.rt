// Worked dumps. Their functions do nothing.
ghost use Rattle.std.specs.Prelude.{◌≡◌, ◌++◌, codes};
ghost use Rattle.fee_image.specs.Cases.{small, ring, pages, head_page, torn_gate, header, content_2, body, after_first, after_new, counted_header, two_banks, three_banks};
ghost use Rattle.fee_dump.specs.Dump.{dump_text};

/// The image that the first write leaves, and one in which a second write was cut at its last page, in both formats.
pub fn writes_are_told()
    ensures first { dump_text small (after_first (pages 4 0xff)) ≡ codes "bank 0 format 1 generation 1\nat 2 number 128 kind 1 length 4 committed\ntail blank\nbank 1 none\nactive 0\n" }
    ensures cut { dump_text small (after_first (header ++ pages 1 0 ++ body content_2 ++ torn_gate)) ≡ codes "bank 0 format 1 generation 1\nat 2 number 128 kind 1 length 4 committed\nat 6 number 128 kind 1 length 4 abandoned\ntail blank\nbank 1 none\nactive 0\n" }
    ensures counted { dump_text small (after_new (counted_header 2 ++ pages 1 0 ++ body content_2 ++ torn_gate)) ≡ codes "bank 0 format 2 generation 1\nat 2 number 128 kind 1 length 4 count 1 committed\nat 6 number 128 kind 1 length 4 count 2 abandoned\ntail blank\nbank 1 none\nactive 0\n" }
{}

/// A bank that a torn erase left, and three banks that stand.
pub fn banks_are_told()
    ensures torn { dump_text small (two_banks (head_page 3 0xfe) (head_page 2 0xfd)) ≡ codes "bank 0 none\nbank 1 format 1 generation 2\ntail blank\nactive 1\n" }
    ensures three { dump_text ring (three_banks (head_page 1 0xfe) (head_page 3 0xfc) (head_page 2 0xfd)) ≡ codes "bank 0 format 1 generation 1\ntail blank\nbank 1 format 1 generation 3\ntail blank\nbank 2 format 1 generation 2\ntail blank\nactive 1\n" }
{}
