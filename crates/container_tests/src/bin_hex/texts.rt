//! Texts that programs in Debian 12 wrote. The file of the first four is 'Test', of type 'TEXT' and creator 'ttxt'.

/// By `binhex` of macutils.
pub const MACUTILS: &[u8] =
    b"(This file must be converted; you knew that already.)\n\n:\"&4PFh3!9%9B9(4dH(3\"!!!!!6F!!!!Ad0CKBQ13!*!!N!#3!*!!HT$rHT!YN!!\n!N!!G33#3#C!!%5+3\"M-4)T!!-d4Tj!:\n";

/// By `hcopy` of hfsutils.
pub const HCOPY: &[u8] =
    b"(This file must be converted with BinHex 4.0)\n:\"&4PFh3!9%9B9(4dH(3!N!3\"0`!!!\"HrNf&LBj!!N!9kN2pkN#f3!!#3!\"e\"!*!\n*N!!4)T!'-a%LN!!c4'RN:\n";

/// The first of these in a mail, whose lines end with CR and LF. A line before the comment begins with a colon.
pub const MAIL: &[u8] =
    b"From: a@b\r\n\r\n:-)\r\n(This file must be converted; you knew that already.)\r\n\r\n:\"&4PFh3!9%9B9(4dH(3\"!!!!!6F!!!!Ad0CKBQ13!*!!N!#3!*!!HT$rHT!YN!!\r\n!N!!G33#3#C!!%5+3\"M-4)T!!-d4Tj!:\r\n\r\n--\r\nsig\r\n";

/// The first of these as mail and FTP leave it, with blanks and tabs at the ends of lines and before the text.
pub const SPACED: &[u8] =
    b" \t(This file must be converted; you knew that already.)  \n\t\n \t:\"&4PFh3!9%9B9(4dH(3\"!!!!!6F!!!!Ad0CKBQ13!*!!N!#3!*!!HT$rHT!YN!!\t \n!N!!G33#3#C!!%5+3\"M-4)T!!-d4Tj!: \n";

/// By Convert::BinHex, with CR at the end of each line. There are two bytes after the CRC of the resource fork.
pub const FILLED: &[u8] =
    b"(This file must be converted with BinHex 4.0)\r:\"89YF(4j!&4&@&4dG(Kd!3!!!!!!!!!!!m6K!!\"KBQ1GeJ!!:\r";

/// Where the colon is that begins the first text, and the one that closes it.
pub const COLON: usize = 55;

pub const CLOSING: usize = 151;
