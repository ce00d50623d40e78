//! The standard types.

/// The declarations of the standard types, as Inside Macintosh says what their bytes are.
pub const BUILT_IN: &[u8] =
    b"/* The standard types of resources, as Inside Macintosh says what their bytes are. */

/* Texts. */
type 'STR ' { pstring; };
type 'STR#' { integer = $$CountOf(Strings); array Strings { pstring; }; };
type 'TEXT' { string; };

/* A version: two numbers in decimal digits, a stage, and the region. */
type 'vers' {
    hex byte;
    hex byte;
    hex byte development = $20, alpha = $40, beta = $60, final = $80;
    hex byte;
    integer;
    pstring;
    pstring;
};

/* Menus. A 0 ends the items. */
type 'MENU' {
    integer;
    integer;
    integer;
    integer;
    integer;
    unsigned hex longint;
    pstring;
    wide array Items {
        pstring;
        byte noIcon;
        char;
        char;
        unsigned hex byte plain;
    };
    byte = 0;
};
type 'MBAR' { integer = $$CountOf(Menus); array Menus { integer; }; };

/* Windows, dialogs and alerts. What goes on to the end is where the window is to be. */
type 'WIND' {
    rect;
    integer documentProc, dBoxProc, plainDBox, altDBoxProc, noGrowDocProc, movableDBoxProc,
        zoomDocProc = 8, zoomNoGrow = 12, rDocProc = 16;
    byte invisible, visible;
    fill byte;
    byte noGoAway, goAway;
    fill byte;
    unsigned hex longint;
    pstring;
    hex string;
};
type 'DLOG' {
    rect;
    integer documentProc, dBoxProc, plainDBox, altDBoxProc, noGrowDocProc, movableDBoxProc,
        zoomDocProc = 8, zoomNoGrow = 12, rDocProc = 16;
    byte invisible, visible;
    fill byte;
    byte noGoAway, goAway;
    fill byte;
    unsigned hex longint;
    integer;
    pstring;
    hex string;
};
type 'ALRT' {
    rect;
    integer;
    array [4] {
        boolean OK, Cancel;
        boolean invisible, visible;
        bitstring[2] silent, sound1, sound2, sound3;
    };
    hex string;
};
type 'DITL' {
    integer = $$CountOf(Items) - 1;
    wide array Items {
        fill long;
        rect;
        switch {
            case Button: boolean enabled, disabled; key bitstring[7] = 4; pstring;
            case CheckBox: boolean enabled, disabled; key bitstring[7] = 5; pstring;
            case RadioButton: boolean enabled, disabled; key bitstring[7] = 6; pstring;
            case Control: boolean enabled, disabled; key bitstring[7] = 7; byte = 2; integer;
            case StaticText: boolean enabled, disabled; key bitstring[7] = 8; pstring;
            case EditText: boolean enabled, disabled; key bitstring[7] = 16; pstring;
            case Icon: boolean enabled, disabled; key bitstring[7] = 32; byte = 2; integer;
            case Picture: boolean enabled, disabled; key bitstring[7] = 64; byte = 2; integer;
            case HelpItem: boolean enabled, disabled; key bitstring[7] = 1; pstring;
            case UserItem: boolean enabled, disabled; key bitstring[7] = 0; pstring;
        };
        align word;
    };
};
type 'CNTL' {
    rect;
    integer;
    byte invisible, visible;
    fill byte;
    integer;
    integer;
    integer pushButProc, checkBoxProc, radioButProc, scrollBarProc = 16;
    longint;
    pstring;
};

/* What the Finder reads of an application. */
type 'BNDL' {
    literal longint;
    integer;
    integer = $$CountOf(Types) - 1;
    array Types {
        literal longint;
        integer = $$CountOf(Ids) - 1;
        wide array Ids { integer; integer; };
    };
};
type 'FREF' { literal longint; integer; pstring; };
type 'SIZE' {
    boolean reserved;
    boolean ignoreSuspendResumeEvents, acceptSuspendResumeEvents;
    boolean reserved;
    boolean cannotBackground, canBackground;
    boolean needsActivateOnFGSwitch, doesActivateOnFGSwitch;
    boolean backgroundAndForeground, onlyBackground;
    boolean dontGetFrontClicks, getFrontClicks;
    boolean ignoreAppDiedEvents, acceptAppDiedEvents;
    boolean not32BitCompatible, is32BitCompatible;
    boolean notHighLevelEventAware, isHighLevelEventAware;
    boolean onlyLocalHLEvents, localAndRemoteHLEvents;
    boolean notStationeryAware, isStationeryAware;
    boolean dontUseTextEditServices, useTextEditServices;
    boolean reserved;
    boolean reserved;
    boolean reserved;
    unsigned longint;
    unsigned longint;
};

/* Icons, cursors and patterns: rows of bits. */
type 'ICON' { hex string[128]; };
type 'ICN#' { array [2] { hex string[128]; }; };
type 'ics#' { array [2] { hex string[32]; }; };
type 'icl4' { hex string[512]; };
type 'icl8' { hex string[1024]; };
type 'ics4' { hex string[128]; };
type 'ics8' { hex string[256]; };
type 'SICN' { array { hex string[32]; }; };
type 'CURS' { hex string[32]; hex string[32]; point; };
type 'acur' { integer = $$CountOf(Cursors); integer; array Cursors { integer; fill word; }; };
type 'PAT ' { hex string[8]; };
type 'PAT#' { integer = $$CountOf(Patterns); array Patterns { hex string[8]; }; };

/* Colours. */
type 'clut' {
    unsigned hex longint;
    hex integer;
    integer = $$CountOf(Colors) - 1;
    wide array Colors { integer; unsigned integer; unsigned integer; unsigned integer; };
};
type 'pltt' {
    integer = $$CountOf(Colors);
    array [7] { integer; };
    wide array Colors {
        unsigned integer;
        unsigned integer;
        unsigned integer;
        hex integer;
        integer;
        array [3] { integer; };
    };
};

/* The fragments of code in a file. */
type 'cfrg' {
    longint;
    longint;
    integer;
    integer;
    array [4] { longint; };
    integer;
    integer = $$CountOf(Fragments);
    array Fragments {
        literal longint;
        integer;
        byte;
        byte;
        hex longint;
        hex longint;
        longint;
        integer;
        byte;
        byte;
        longint;
        longint;
        longint;
        integer;
        integer;
        integer;
        pstring;
        align long;
    };
};

/* A template: the names and the types of fields. */
type 'TMPL' { array { pstring; literal longint; }; };
";
